// What the sponge takes for a pad: seven fields, one after another, into one sponge that is lent for each; and the numbers that it gives.
ghost use Rattle.std.specs.Prelude.{◌≡◌, ◌*◌, length};
ghost use Rattle.shake.specs.Numbers.{numbers};
ghost use Rattle.shake.specs.Shake.{shake256};
ghost use Rattle.shake.specs.Stream.{with_field, empty};
ghost use Rattle.pads.specs.Pad.{pad_input};
ghost use Rattle.pads.specs.Binding.{bound_by, seven_fields};

use shake::Sponge;

// What a row's pads are bound to, besides receiver and key: the round, the modulus of the senders' keys, the output wire and the component.
#[derive(Clone, Copy)]
pub struct Bound {
    pub round: u32,
    pub modulus: u8,
    pub wire: u32,
    pub component: u8,
}

// One sponge, lent for each of seven fields in turn.
fn seven_fields(
    tag: &[u8],
    round: &[u8],
    modulus: &[u8],
    wire: &[u8],
    component: &[u8],
    receiver: &[u8],
    key: &[u8],
) -> Sponge
    ensures { result ≡ seven_fields tag.now round.now modulus.now wire.now component.now receiver.now key.now }
{
    let mut sponge = shake::start();
    shake::absorb(&mut sponge, tag);
    shake::absorb(&mut sponge, round);
    shake::absorb(&mut sponge, modulus);
    shake::absorb(&mut sponge, wire);
    shake::absorb(&mut sponge, component);
    shake::absorb(&mut sponge, receiver);
    shake::absorb(&mut sponge, key);
    sponge
}

// The sponge that has taken in a pad's input.
fn pad_sponge(bound: Bound, receiver: u8, key: &[u8]) -> Sponge
    ensures { result ≡ with_field empty (pad_input bound.round (bound_by bound receiver key.now)) }
{
    let rounds = bound.round.to_le_bytes();
    let moduli = [bound.modulus];
    let wires = bound.wire.to_le_bytes();
    let components = [bound.component];
    let receivers = [receiver];
    seven_fields(
        b"ROWPAD",
        &rounds,
        &moduli,
        &wires,
        &components,
        &receivers,
        key,
    )
}

// The 8-byte numbers of a pad, before they are reduced: as many as the buffer has.
pub fn pad_numbers(bound: Bound, receiver: u8, key: &[u8], out: &mut [u64])
    ensures { out.new ≡ numbers (shake256 (pad_input bound.round (bound_by bound receiver key.now)) (8 * length out.old)) }
{
    shake::squeeze_numbers(shake::finished(pad_sponge(bound, receiver, key)), out);
}
