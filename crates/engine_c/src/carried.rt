// A unit's old total, carried over to a meter of eight accounts.
ghost use Rattle.std.specs.Prelude.{◌≡◌};
ghost use Rattle.meter.specs.Meter.{carried};

#[unsafe(no_mangle)]
pub extern "C" fn lupiknam_meter_carry(total: u32, meter: &mut [u32; 8])
    ensures { meter.new ≡ carried total }
{
    engine::lupiknam_meter_carry(total, meter);
}
