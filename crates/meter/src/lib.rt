// The row meter, which garbling is lent: eight totals, one for each account. The two checks that garbling asks of it, the named total charged, and an
// old unit's total carried over. specs/Garblings.antt says what it holds after any number of garblings. Rests on `checks` for answers.

#![tactic(auto)]

ghost use Rattle.std.specs.Prelude.{◌≡◌, ◌<◌, get_or};
ghost use Rattle.meter.specs.Meter.{accounts, carried, account_checked, HasSpace, meter_checked, charged};

use checks::{Answer, Refusal};

// The meter of a unit whose one total was so much: account 0 takes it over, the others start at 0.
pub fn carried(total: u32) -> [u32; 8]
    ensures { result ≡ carried total }
{
    [total, 0, 0, 0, 0, 0, 0, 0]
}

// Whether there is such an account.
#[tactic(auto, unfolding(crate::specs::Meter::account_checked, checks::specs::Checked::unless))]
pub fn account_checked(account: u32) -> Answer
    ensures { result ≡ account_checked account }
{
    if account < 8 {
        Ok(())
    } else {
        Err(Refusal::NoSuchAccount.at(0))
    }
}

// Whether the named total has space for so many rows. The sum might not fit in 32 bits, so the total is held against what the rows leave.
#[tactic(auto, unfolding(crate::specs::Meter::meter_checked, checks::specs::Checked::unless))]
pub fn meter_checked(meter: &[u32; 8], account: u32, rows: u32) -> Answer
    ensures { result ≡ meter_checked (record { totals = meter.now; account = account }) rows }
{
    let total = meter.get(account as usize).copied().unwrap_or(0);
    let space = u32::MAX - rows;
    if total <= space {
        Ok(())
    } else {
        Err(Refusal::MeterFull.at(0))
    }
}

// So many rows, for which it had space, added to the named total.
pub fn charge(meter: &mut [u32; 8], account: u32, rows: u32)
    requires { (account < accounts) × HasSpace (record { totals = meter.old; account = account }) rows }
    ensures { meter.new ≡ charged (record { totals = meter.old; account = account }) rows }
{
    meter[account as usize] += rows;
}
