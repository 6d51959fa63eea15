// The rule by which one of two slots is in force.
ghost use Rattle.std.specs.Prelude.{◌≡◌, Some, None, true, false, MatchOption, IfSome, if◌then◌else◌};
ghost use Rattle.ficus_slot.specs.Slot.{slot_in};
ghost use Rattle.ficus_two_slots.specs.Slots.{StandsOn, in_force};

use ficus_slot::{Slot, is_shut, read_slot};

/// The slot in force: on which disk it lies, and whether the gate of the other disk is closed.
#[derive(Clone, Copy)]
pub struct Choice<'a> {
    pub slot: Slot<'a>,
    pub on_a: bool,
    pub shut: bool,
}

/// The slot in force of what two disks hold: that of the greater generation, that of `a` where they are equal. `None`
/// comes exactly where neither is open and whole.
pub fn choose<'a>(a: &'a [u8], b: &'a [u8]) -> Option<Choice<'a>>
    ensures found { MatchOption result (in_force a.now b.now ≡ None) (λ choice. in_force a.now b.now
        ≡ Some (record { generation = choice.slot.generation; body = choice.slot.body.now })) }
    ensures stands { MatchOption result (in_force a.now b.now ≡ None)
        (λ choice. StandsOn choice.on_a choice.slot.generation choice.shut a.now b.now) }
    ensures slot { IfSome result (λ choice. slot_in (if choice.on_a then a.now else b.now)
        ≡ Some (record { generation = choice.slot.generation; body = choice.slot.body.now })) }
{
    match (read_slot(a), read_slot(b)) {
        (None, None) => None,
        (Some(first), Some(second)) if second.generation > first.generation => Some(Choice {
            slot: second,
            on_a: false,
            shut: is_shut(a),
        }),
        (Some(slot), _) => Some(Choice {
            slot,
            on_a: true,
            shut: is_shut(b),
        }),
        (None, Some(slot)) => Some(Choice {
            slot,
            on_a: false,
            shut: is_shut(a),
        }),
    }
}
