// A sheet by value with its limits, the cost rules of the segment trace analyser as functions on numbers, and the numbers of its refusals.
// What each means is written in specs/; nothing is assumed.
#![tactic(auto)]

ghost use Rattle.std.specs.Prelude.{ℕ, ◌≡◌, [], ◌+◌, ◌-◌, ◌*◌, ◌≤◌, ◌<◌, ◌^◌};
ghost use Rattle.model.specs.Costs.{swap_cost, unit_cost, retention, keeps, total_cost, margin_of};
ghost use Rattle.model.specs.LastTouches.{start_table};
ghost use Rattle.model.specs.Pricing.{no_price, price_given};
ghost use Rattle.model.specs.RowAnswers.{figures_given};
ghost use Rattle.model.specs.Rows.{zero_figures};
ghost use Rattle.model.specs.Refusals.{number_of};
ghost use Rattle.model.specs.Values.{sheet_limits, empty_head, empty_sheet};

// What a memory unit is: a reference by itself (time), or the size of the segment (space).
#[derive(Clone, Copy, Debug, PartialEq, Eq)]
pub enum Kind {
    Time,
    Space,
}

// An amount in memory units. Two are compared as priced amounts only.
#[derive(Clone, Copy, Debug)]
pub struct MemoryUnits(pub u64);

// An amount in load units. Two are compared as priced amounts only.
#[derive(Clone, Copy, Debug)]
pub struct LoadUnits(pub u64);

// A priced amount: memory units at the price d, or load units at the price h. Two of them can be compared.
#[derive(Clone, Copy, Debug, PartialEq, Eq)]
pub struct Priced(pub u64);

// A row of a sheet: h is the price of one load unit, d that of one memory unit. Its threshold is h/d.
#[derive(Clone, Copy, Debug, PartialEq, Eq)]
pub struct PriceRow {
    pub h: u16,
    pub d: u16,
}

// The head of a sheet: kind, a, the first `segs` sizes, the first `rows` price rows and the first `warm` of `holds`, the warm segments.
// In a head that was read, what stands beyond the counts is 0.
#[derive(Clone, Copy)]
pub struct Head {
    pub kind: Kind,
    pub a: u8,
    pub segs: usize,
    pub sizes: [u16; Sheet::MAX_SEGS],
    pub rows: usize,
    pub prices: [PriceRow; Sheet::MAX_ROWS],
    pub warm: usize,
    pub holds: [u16; Sheet::MAX_SEGS],
}

// A sheet by value: its form, its head, for each of the first `steps` steps the segment that it touches or `Sheet::IDLE`, and for each of
// the first `marked` steps whether the touch modifies it: of all steps in form 4, of none in the others. In a sheet that was read, what
// stands beyond the counts is `Sheet::IDLE` and false.
#[derive(Clone, Copy)]
pub struct Sheet {
    pub form: u8,
    pub head: Head,
    pub steps: usize,
    pub marked: usize,
    pub touches: [u16; Sheet::MAX_STEPS],
    pub marks: [bool; Sheet::MAX_STEPS],
}

// The limits of a sheet, as `Sheet::limits` hands them out.
#[derive(Clone, Copy)]
pub struct SheetLimits {
    pub form: u8,
    pub bytes: usize,
    pub bytes_2: usize,
    pub bytes_3: usize,
    pub bytes_4: usize,
    pub a: u32,
    pub segs: usize,
    pub size: u32,
    pub rows: usize,
    pub price: u32,
    pub steps: usize,
    pub idle: u16,
}

impl Sheet {
    // The newest form.
    pub const NEWEST_FORM: u8 = 4;
    // The most bytes of a sheet of form 1, of form 2, of form 3 and of form 4.
    pub const MAX_BYTES: usize = 20_012;

    pub const MAX_BYTES_2: usize = 29_163;

    pub const MAX_BYTES_3: usize = 31_366;

    pub const MAX_BYTES_4: usize = 33_414;
    // The largest weight of volume a.
    pub const MAX_A: u32 = 255;
    // The most segments.
    pub const MAX_SEGS: usize = 256;
    // The largest size of a segment.
    pub const MAX_SIZE: u32 = 4_095;
    // The most rows.
    pub const MAX_ROWS: usize = 64;
    // The largest price.
    pub const MAX_PRICE: u32 = 65_535;
    // The most steps.
    pub const MAX_STEPS: usize = 2_048;
    // The entry of a step without a touch.
    pub const IDLE: u16 = 65_535;

    // The limits: each is the number that the definitions use.
    pub fn limits() -> SheetLimits
        ensures { result ≡ sheet_limits }
    {
        SheetLimits {
            form: Sheet::NEWEST_FORM,
            bytes: Sheet::MAX_BYTES,
            bytes_2: Sheet::MAX_BYTES_2,
            bytes_3: Sheet::MAX_BYTES_3,
            bytes_4: Sheet::MAX_BYTES_4,
            a: Sheet::MAX_A,
            segs: Sheet::MAX_SEGS,
            size: Sheet::MAX_SIZE,
            rows: Sheet::MAX_ROWS,
            price: Sheet::MAX_PRICE,
            steps: Sheet::MAX_STEPS,
            idle: Sheet::IDLE,
        }
    }

    // A sheet with nothing in it: no form, no segments, no rows, no steps, no marks.
    pub fn empty() -> Sheet
        ensures { result ≡ empty_sheet }
    {
        Sheet {
            form: 0,
            head: Head::empty(),
            steps: 0,
            touches: [Sheet::IDLE; Sheet::MAX_STEPS],
            marked: 0,
            marks: [false; Sheet::MAX_STEPS],
        }
    }
}

impl Head {
    // A head with nothing in it: no segments, no rows, no warm segments.
    pub fn empty() -> Head
        ensures { result ≡ empty_head }
    {
        Head {
            kind: Kind::Time,
            a: 0,
            segs: 0,
            sizes: [0u16; Sheet::MAX_SEGS],
            rows: 0,
            prices: [PriceRow { h: 0, d: 0 }; Sheet::MAX_ROWS],
            warm: 0,
            holds: [0u16; Sheet::MAX_SEGS],
        }
    }
}

// The figures of a row, the eleven items that the listing prints. wsmem and wsocc carry the factor d.
#[derive(Clone, Copy)]
pub struct RowFigures {
    pub h: u64,
    pub d: u64,
    pub misses: u64,
    pub volume: u64,
    pub load: LoadUnits,
    pub optmem: MemoryUnits,
    pub opttotal: u64,
    pub optocc: u64,
    pub wsmem: u64,
    pub wsocc: u64,
    pub mean: u64,
}

impl RowFigures {
    // How many items.
    pub const ITEMS: usize = 11;

    // All figures zero: what a refused call gives, and a row beyond the last.
    pub fn zero() -> RowFigures
        ensures { result ≡ zero_figures }
    {
        RowFigures {
            h: 0,
            d: 0,
            misses: 0,
            volume: 0,
            load: LoadUnits(0),
            optmem: MemoryUnits(0),
            opttotal: 0,
            optocc: 0,
            wsmem: 0,
            wsocc: 0,
            mean: 0,
        }
    }

    // The figures that an answer gives: all zero where the call is refused.
    pub fn given(answer: Result<RowFigures, Refusal>) -> RowFigures
        ensures { result ≡ figures_given answer }
    {
        answer.unwrap_or(RowFigures::zero())
    }
}

// Why a call refuses, a name for each number of the lists in documents 01 and 02.
#[derive(Clone, Copy, Debug, PartialEq, Eq)]
pub enum Refusal {
    SheetTooLong,
    LineMalformed,
    ValueMalformed,
    OutOfRange,
    ThresholdNotAbove,
    BytesAfterEnd,
    NoSuchRow,
    ScheduleLength,
    TouchedNotHeld,
    HeldNotBefore,
    PlaceTooShort,
    NoRowFits,
    RecorderFull,
    NoSuchReference,
    FirstTouch,
    StepNotAbove,
    IdleStep,
    TariffOutOfRange,
    HoldNotAbove,
    HeadsDiffer,
    BothTouch,
    TooManySegments,
    PageOutOfRange,
    TraceMalformed,
    TraceTooLong,
    SizeNotOne,
    WarmSegment,
    NotTimeZero,
}

impl Refusal {
    // The number of a refusal.
    pub fn number(self) -> u64
        ensures { result ≡ number_of self }
    {
        match self {
            Refusal::SheetTooLong => 1,
            Refusal::LineMalformed => 2,
            Refusal::ValueMalformed => 3,
            Refusal::OutOfRange => 4,
            Refusal::ThresholdNotAbove => 5,
            Refusal::BytesAfterEnd => 6,
            Refusal::NoSuchRow => 7,
            Refusal::ScheduleLength => 8,
            Refusal::TouchedNotHeld => 9,
            Refusal::HeldNotBefore => 10,
            Refusal::PlaceTooShort => 11,
            Refusal::NoRowFits => 12,
            Refusal::RecorderFull => 13,
            Refusal::NoSuchReference => 14,
            Refusal::FirstTouch => 15,
            Refusal::StepNotAbove => 16,
            Refusal::IdleStep => 17,
            Refusal::TariffOutOfRange => 18,
            Refusal::HoldNotAbove => 19,
            Refusal::HeadsDiffer => 20,
            Refusal::BothTouch => 21,
            Refusal::TooManySegments => 22,
            Refusal::PageOutOfRange => 23,
            Refusal::TraceMalformed => 24,
            Refusal::TraceTooLong => 25,
            Refusal::SizeNotOne => 26,
            Refusal::WarmSegment => 27,
            Refusal::NotTimeZero => 28,
        }
    }
}

// What pricing a schedule gives: its memory, load and total.
#[derive(Clone, Copy)]
pub struct Price {
    pub memory: MemoryUnits,
    pub load: LoadUnits,
    pub total: u64,
}

impl Price {
    // All three zero: what a refused call gives.
    pub fn zero() -> Price
        ensures { result ≡ no_price }
    {
        Price {
            memory: MemoryUnits(0),
            load: LoadUnits(0),
            total: 0,
        }
    }

    // The price that an answer gives: all zero where the call is refused.
    pub fn given(answer: Result<Price, Refusal>) -> Price
        ensures { result ≡ price_given answer }
    {
        answer.unwrap_or(Price::zero())
    }
}

// w: what loading a segment of size z costs, where a is the weight of volume.
pub fn swap_cost(a: u8, z: u16) -> LoadUnits
    ensures { result.0 ≡ swap_cost a z }
{
    LoadUnits(1 + (a as u64) * (z as u64))
}

// The mark of a segment that was not touched yet, in a table of last touches. It is past every step.
pub const UNTOUCHED: u16 = 65_535;

// The table of last touches before step 1 where no segment is warm.
fn untouched() -> [u16; Sheet::MAX_SEGS]
    ensures { result ≡ start_table [] }
{
    [UNTOUCHED; Sheet::MAX_SEGS]
}

// The table of last touches before step 1: 0 for each warm segment, and every other is untouched.
pub fn start_table(warm: &[u16]) -> [u16; Sheet::MAX_SEGS]
    ensures { result ≡ start_table warm.now }
{
    let mut last = untouched();
    for segment in warm {
        let i = *segment as usize;
        if i < Sheet::MAX_SEGS {
            last[i] = 0;
        }
    }
    last
}

// What one step of a segment of size z in memory costs.
pub fn unit_cost(kind: Kind, z: u16) -> MemoryUnits
    ensures { result.0 ≡ unit_cost kind z }
{
    match kind {
        Kind::Time => MemoryUnits(1),
        Kind::Space => MemoryUnits(z as u64),
    }
}

// R: what holding a segment of size z through so many unreferenced steps costs.
pub fn retention_cost(kind: Kind, z: u16, unreferenced: u16) -> MemoryUnits
    ensures { result.0 ≡ retention kind z unreferenced }
{
    match kind {
        Kind::Time => MemoryUnits(unreferenced as u64),
        Kind::Space => MemoryUnits((unreferenced as u64) * (z as u64)),
    }
}

// Amounts in units of one kind: so many of them, and the arithmetic that amounts of one kind have.
pub trait Amount: Copy {
    // How many units.
    ghost units: { Self → ℕ };

    // So many units.
    fn of(count: u64) -> Self
        ensures { units result ≡ count };

    // How many units.
    fn count(self) -> u64
        ensures { result ≡ units self };

    // An amount at the price of one unit.
    fn priced(self, price: u16) -> Priced
        requires { units self < 2 ^ 47 }
        ensures { result.0 ≡ price * units self }
    {
        Priced((price as u64) * self.count())
    }

    // Two amounts, added.
    fn plus(self, other: Self) -> Self
        requires { units self + units other < 2 ^ 64 }
        ensures { units result ≡ units self + units other }
    {
        Self::of(self.count() + other.count())
    }

    // An amount without a part of it.
    fn minus(self, part: Self) -> Self
        requires { units part ≤ units self }
        ensures { units result ≡ units self - units part }
    {
        Self::of(self.count() - part.count())
    }

    // An amount, multiplied by a size.
    fn times(self, z: u16) -> Self
        requires { units self < 2 ^ 47 }
        ensures { units result ≡ units self * z }
    {
        Self::of(self.count() * (z as u64))
    }
}

impl Amount for MemoryUnits {
    ghost units = { λ m. m.0 };

    fn of(count: u64) -> MemoryUnits {
        MemoryUnits(count)
    }

    fn count(self) -> u64 {
        self.0
    }
}

impl Amount for LoadUnits {
    ghost units = { λ l. l.0 };

    fn of(count: u64) -> LoadUnits {
        LoadUnits(count)
    }

    fn count(self) -> u64 {
        self.0
    }
}

// Whether a reuse is kept: its priced retention does not exceed its priced swap cost.
pub fn kept(retention: Priced, swap: Priced) -> bool
    ensures { result ≡ keeps retention.0 swap.0 }
{
    retention.0 <= swap.0
}

// The margin of a reuse: its priced swap cost less its priced retention.
pub fn margin(retention: Priced, swap: Priced) -> i64
    requires { (retention.0 < 2 ^ 62) × (swap.0 < 2 ^ 62) }
    ensures { result ≡ margin_of retention.0 swap.0 }
{
    (swap.0 as i64) - (retention.0 as i64)
}

// The total of an amount of memory and an amount of load at a row's prices: with the tariff's bill the one place where the two units meet.
pub fn total(row: PriceRow, memory: MemoryUnits, load: LoadUnits) -> u64
    requires { (memory.0 < 2 ^ 47) × (load.0 < 2 ^ 47) }
    ensures { result ≡ total_cost row.h row.d memory.0 load.0 }
{
    memory.priced(row.d).0 + load.priced(row.h).0
}
