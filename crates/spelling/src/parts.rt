// What a draft says, as plain data.
ghost use Rattle.std.specs.Prelude.{◌≡◌, ◌+◌, ◌≤◌, length, nat_lt, take, Some as Shown};
ghost use Rattle.std.specs.Fmt.{WritesOnOk, styled_text};
ghost use Rattle.spelling.specs.Flows.{name_of};

use std::fmt;

// The two ways through the cipher.
#[derive(Clone, Copy, PartialEq, Eq, Debug)]
pub enum Flow {
    Flex,
    Cpa,
}

impl fmt::Display for Flow {
    ghost output = { λ flow. Shown (name_of flow) };

    ghost styled_output = { λ flow style. Shown (styled_text style (name_of flow)) };

    fn fmt<W: fmt::Write>(&self, f: &mut fmt::Formatter<W>) -> fmt::Result {
        f.pad(match self {
            Flow::Flex => "Flex",
            Flow::Cpa => "CPA",
        })
    }
}

// The width of the numbers, the flow, the constants C0 and C1, and the lists of the orders 0 to 5, which are arrays, since the
// reading of a draft takes no heap. What a width has no use for is zero, a rule of docs/SPEC.md: up to 32 bits C1 and the
// orders 4 and 5.
#[derive(Clone, Copy)]
pub struct Parts {
    pub width: u8,
    pub flow: Flow,
    pub c0: u64,
    pub c1: u64,
    pub orders: [[u8; 64]; 6],
}

// A line each: width and flow, C0, C1 where the width has a use for it, and each order by the places that count.
impl fmt::Display for Parts {
    ghost use Rattle.spelling.specs.Shown.{parts_text};

    ghost output = { λ parts. Shown (parts_text parts) };

    fn fmt<W: fmt::Write>(&self, f: &mut fmt::Formatter<W>) -> fmt::Result {
        write!(f, "width {}, flow {}", self.width, self.flow)?;
        write!(f, "\nC0 {}", self.c0)?;
        self.fmt_c1(f)?;
        fmt_orders(f, 0, &self.orders[..4], self.width)?;
        self.fmt_wide_orders(f)
    }
}

impl Parts {
    ghost use Rattle.spelling.specs.Shown.{c1_text, wide_orders_text};

    fn is_wide(&self) -> bool
        ensures { result ≡ nat_lt 32 self.now.width }
    {
        self.width > 32
    }

    fn fmt_c1<W: fmt::Write>(&self, f: &mut fmt::Formatter<W>) -> fmt::Result
        ensures { WritesOnOk W.write_str_gives f.old result (c1_text self.now) f.new }
    {
        if self.is_wide() {
            write!(f, "\nC1 {}", self.c1)?;
        }
        Ok(())
    }

    // The orders 4 and 5, which are of 64 bits.
    fn fmt_wide_orders<W: fmt::Write>(&self, f: &mut fmt::Formatter<W>) -> fmt::Result
        ensures { WritesOnOk W.write_str_gives f.old result (wide_orders_text self.now) f.new }
    {
        if self.is_wide() {
            fmt_orders(f, 4, &self.orders[4..], 64)?;
        }
        Ok(())
    }
}

ghost use Rattle.spelling.specs.Shown.{order_text, orders_text};

fn fmt_orders<W: fmt::Write>(
    f: &mut fmt::Formatter<W>,
    from: usize,
    lists: &[[u8; 64]],
    size: u8,
) -> fmt::Result
    requires { from + length lists.now ≤ 6 }
    ensures { WritesOnOk W.write_str_gives f.old result (orders_text from size lists.now) f.new }
{
    for (k, list) in lists.iter().enumerate() {
        fmt_order(f, from + k, used(list, size))?;
    }
    Ok(())
}

#[tactic(auto, using(std::proofs::lemmas::List::take_more, std::proofs::lemmas::List::flat_map_more))]
fn fmt_order<W: fmt::Write>(f: &mut fmt::Formatter<W>, k: usize, places: &[u8]) -> fmt::Result
    ensures { WritesOnOk W.write_str_gives f.old result (order_text k places.now) f.new }
{
    write!(f, "\norder {k}:")?;
    for place in places {
        write!(f, " {place}")?;
    }
    Ok(())
}

// The places of a list that count, all where the size is above 64.
fn used(list: &[u8; 64], size: u8) -> &[u8]
    ensures { result.now ≡ take size list.now }
{
    list.get(..size.into()).unwrap_or(list)
}
