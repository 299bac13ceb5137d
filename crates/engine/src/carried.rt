// A unit's old total, carried over to a meter of eight accounts.
ghost use Rattle.std.specs.Prelude.{◌≡◌};
ghost use Rattle.meter.specs.Meter.{carried};

use meter::carried;

// The old total becomes account 0's, the others start at 0, whatever the meter held. A new meter carries 0. It refuses nothing.
pub fn lupiknam_meter_carry(total: u32, meter: &mut [u32; 8])
    ensures { meter.new ≡ carried total }
{
    *meter = carried(total);
}
