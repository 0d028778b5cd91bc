//! Bytes that have come and were not used.

ghost use Rattle.std.specs.Prelude.{◌≡◌, ◌≤◌, ◌-◌, length, take};
ghost use Rattle.http_link.specs.Running.{held_in};

/// From where to where they are in a buffer.
#[derive(Clone, Copy)]
pub(crate) struct Held {
    pub(crate) from: usize,
    pub(crate) to: usize,
}

/// No bytes.
pub(crate) const NOTHING: Held = Held { from: 0, to: 0 };

/// Moves them to the front of the room.
pub(crate) fn move_to_front(room: &mut [u8], held: &mut Held)
    requires within { (held.old.from ≤ held.old.to) × (held.old.to ≤ length room.old) }
    ensures len { length room.new ≡ length room.old }
    ensures within { held.new.to ≤ length room.new }
    ensures front { held.new.from ≡ 0 }
    ensures size { held.new.to ≡ held.old.to - held.old.from }
    ensures same { take held.new.to room.new ≡ held_in room.old held.old }
{
    let Held { from, to } = *held;
    if from == 0 {
        return;
    }
    room.copy_within(from..to, 0);
    *held = Held {
        from: 0,
        to: to - from,
    };
}
