// The codings of a release's columns.
ghost use Rattle.std.specs.Prelude.{◌≡◌};
ghost use Rattle.book.specs.Rows.{coding_of};
ghost use Rattle.release.specs.Coder.{one_coded, one_back, row_coded};
ghost use Rattle.release.specs.Views.{meanings_of};

use crate::columns::Columns;
use book::refusal::Refusal;
use book::role::Role;
use codings::coding::Coding;
use codings::turned::Turned;

// The yarn coding and the hands coding. Whoever keeps them elsewhere can lend them: a coding that is lent is a coding. Clauses
// take what both mean by `meanings_of`: a model's Value holds no functions, and a meaning does.
#[derive(Drop)]
pub struct ColumnCodings<Y, H> {
    pub yarn: Y,
    pub hands: H,
}

impl<Y: Coding, H: Coding> ColumnCodings<Y, H> {
    // The code of x in a column of this role.
    pub(crate) fn code_in(&self, role: Role, x: u64) -> Result<u64, Refusal>
        ensures { result ≡ one_coded (coding_of (meanings_of Y.means H.means self.now) role) x }
    {
        let code = match role {
            Role::Yarn => self.yarn.code(x)?,
            Role::Hands => self.hands.code(x)?,
            Role::Clear => x,
        };
        Ok(code)
    }

    // The number whose code in a column of this role is y.
    pub(crate) fn back_in(&self, role: Role, y: u64) -> Result<u64, Refusal>
        ensures { result ≡ one_back (coding_of (meanings_of Y.means H.means self.now) role) y }
    {
        let turned = ColumnCodings {
            yarn: Turned::new(&self.yarn),
            hands: Turned::new(&self.hands),
        };
        turned.code_in(role, y)
    }

    // The numbers of the record of a row: its codes, with zeros after them.
    pub(crate) fn coded_row(&self, columns: &Columns, numbers: &[u64]) -> Result<[u64; 8], Refusal>
        ensures { result ≡ row_coded (meanings_of Y.means H.means self.now) columns.now numbers.now }
    {
        let roles = columns.as_slice();
        let mut codes = [0; 8];
        // By place: what a zip over `iter_mut` has written is not known to a proof.
        for (j, (role, number)) in roles.iter().zip(numbers).enumerate() {
            codes[j] = self.code_in(*role, *number)?;
        }
        Ok(codes)
    }
}
