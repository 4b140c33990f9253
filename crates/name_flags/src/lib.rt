// Names flagged by number: which names of a form are bound (the form checker's flag), and which are free.
#![tactic(auto)]

ghost use Rattle.std.specs.Prelude.{true, ◌≡◌, ℕ, ◌<◌, max, eqb, length, get_or};
ghost use Rattle.lists.specs.Choice.{pick};
ghost use Rattle.name_flags.specs.Flags.{flag_with};

// The flag of a name that is written and that no prefix block binds.
pub const FREE: u8 = 2;

// Gives the name x the flag 2 if it has none. The result is the higher of the two if it got one.
pub fn flag_name(names: &mut [u8], x: u32, highest: u32) -> u32
    requires { x < length names.old }
    ensures by_index { (y : ℕ) → get_or names.new y 0
        ≡ pick (eqb y x) (flag_with (get_or names.old y 0) true) (get_or names.old y 0) }
    ensures value { result ≡ pick (eqb (get_or names.old x 0) 0) (max highest x) highest }
{
    let at = x as usize;
    if names[at] > 0 {
        return highest;
    }
    names[at] = FREE;
    form_check::higher(highest, x)
}
