// Hands out the new names of a lift.
#![tactic(auto)]

ghost use Rattle.std.specs.Prelude.{◌≡◌, ◌+◌, ◌≤◌, ◌<◌};

// The next free number. Every new name is handed out by it. It is a value that each naming hands on to the
// next: a rule of the project asks for this form, in place of a counter changed where it stands.
#[derive(Clone, Copy)]
pub struct NameCounter {
    pub next: u32,
}

// A name, or the first of several, and the counter after it.
#[derive(Clone, Copy)]
pub struct Handed {
    pub name: u32,
    pub counter: NameCounter,
}

impl NameCounter {
    // Hands out the next free number.
    pub fn take(self) -> Handed
        requires { self.next < 4294967295 }
        ensures { (result.name ≡ self.next) × (result.counter.next ≡ self.next + 1) }
    {
        self.take_run(1)
    }

    // Hands out the next `count` free numbers, which follow one another from the name on.
    pub fn take_run(self, count: u32) -> Handed
        requires { self.next + count ≤ 4294967295 }
        ensures { (result.name ≡ self.next) × (result.counter.next ≡ self.next + count) }
    {
        Handed {
            name: self.next,
            counter: NameCounter {
                next: self.next + count,
            },
        }
    }
}
