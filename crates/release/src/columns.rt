// The columns of a release, by their roles.
ghost use Rattle.std.specs.Prelude.{◌≡◌, ◌≤◌, length, IfOk};
ghost use Rattle.release.specs.Opening.{columns_of};

use book::refusal::Refusal;
use book::role::Role;
use std::marker::Model;

// One to eight roles, in an array, since a release takes no heap. What stands behind them is clear.
#[derive(Drop)]
pub struct Columns {
    roles: [Role; 8],
    count: usize,
}

impl Model for Columns {
    ghost use Rattle.std.specs.Prelude.{◌≡◌, ◌-◌, ◌≤◌, ◌++◌, List, length, take, drop, replicate};
    ghost use Rattle.book.specs.declared.role.Role.{Role};
    ghost use Rattle.book.specs.declared.role.Role.TheVariants.{Clear};
    ghost use Rattle.book.proofs.Padding.{refilled};
    ghost use Rattle.std.proofs.Common.{ap, ◌∙◌};

    ghost Value = { List Role };

    ghost view = { λ c. take c.count c.roles };

    ghost invariant = { λ c. (length c.roles ≡ 8) × (c.count ≤ 8) × (drop c.count c.roles ≡ replicate (8 - c.count) Clear) };

    ghost inverse = { λ roles. record { roles = roles ++ replicate (8 - length roles) Clear; count = length roles } };

    ghost inverse_ok = { λ c h. let filled = refilled Clear c.roles c.count h.0 h.1 h.2 in ap (λ roles. record { roles = roles; count = length (take c.count c.roles) }) filled.0 ∙ ap (λ n. record { roles = c.roles; count = n }) filled.1 };
}

impl Columns {
    pub(crate) fn as_slice(&self) -> &[Role]
        ensures roles { result.now ≡ self.now }
        ensures few { length result.now ≤ 8 }
    {
        &self.roles[..self.count]
    }

    // The columns of these role letters; refused where there are not 1 to 8 (14), or one is no role letter (15).
    pub(crate) fn read(letters: &[char]) -> Result<Columns, Refusal>
        ensures answer { result ≡ columns_of letters.now }
        ensures few { IfOk result (λ columns. length columns ≤ 8) }
    {
        let count = letters.len();
        if count == 0 || count > 8 {
            return Err(Refusal::Columns);
        }
        let mut roles = [Role::Clear; 8];
        // By place, as in `coded_row`. One function for both loops would be a closure with a contract for these two lines.
        for (j, letter) in letters.iter().enumerate() {
            roles[j] = Role::try_from(*letter)?;
        }
        Ok(Columns { roles, count })
    }
}
