// The roles of columns.
ghost use Rattle.std.specs.Prelude.{◌≡◌};
ghost use Rattle.book.specs.Roles.{role_read};

use crate::refusal::Refusal;

// What the numbers of a column are, and so which coding they have.
#[derive(Clone, Copy, PartialEq, Eq, Debug)]
pub enum Role {
    // Coded by the yarn coding; its letter is Y.
    Yarn,
    // Coded by the hands coding; its letter is H.
    Hands,
    // Not coded; its letter is C.
    Clear,
}

// The role of a letter.
impl TryFrom<char> for Role {
    type Error = Refusal;

    ghost try_from_gives = { λ letter role. role ≡ role_read letter };

    fn try_from(letter: char) -> Result<Role, Refusal> {
        match letter {
            'Y' => Ok(Role::Yarn),
            'H' => Ok(Role::Hands),
            'C' => Ok(Role::Clear),
            _ => Err(Refusal::RoleLetter),
        }
    }
}
