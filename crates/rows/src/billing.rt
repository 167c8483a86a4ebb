// Billing: what a run of an accepted sheet at a row costs by the loading tariff.
// What is answered is written in crate `tariff`.
ghost use Rattle.std.specs.Prelude.{◌≡◌};
ghost use Rattle.model.specs.Standing.{Standing};
ghost use Rattle.model.specs.Values.{value_of};
ghost use Rattle.tariff.specs.Billing.{bill_for};

use model::{Refusal, Sheet};
use tariff::{Cents, Tariff};

// The bill of a row of an accepted sheet, from the figures of this row alone: 7, then 18.
pub fn sheet_bill(s: Sheet, row: usize, tariff: Tariff) -> Result<Cents, Refusal>
    requires { Standing s }
    ensures { result ≡ bill_for (value_of s) row tariff }
{
    if row >= s.head.rows {
        return Err(Refusal::NoSuchRow);
    }
    if !tariff.in_range() {
        return Err(Refusal::TariffOutOfRange);
    }
    let f = crate::row_alone(s, row);
    Ok(tariff.bill(f.optmem, f.load))
}
