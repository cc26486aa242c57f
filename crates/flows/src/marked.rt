// Cases of the cipher, its parts and the codings with known results, which anyone can work out again.
ghost use Rattle.std.specs.Prelude.{◌≡◌, map};
ghost use Rattle.std.specs.List.{AllByRecursion};
ghost use Rattle.flows.specs.Marked.{marked, AllHold};

use crate::case::{Claim, Plain, Rule, Shift};
use boxes::shape::Shape;
use spelling::parts::Flow;

const FIRST_KEY_BYTE: Rule = Rule::Cipher(Plain {
    width: 25,
    flow: Flow::Flex,
    first: 1,
    c1: 0,
    crossed: false,
});

const PLAIN_CPA: Rule = Rule::Cipher(Plain {
    width: 25,
    flow: Flow::Cpa,
    first: 0,
    c1: 0,
    crossed: false,
});

const CROSSED: Rule = Rule::Cipher(Plain {
    width: 64,
    flow: Flow::Flex,
    first: 0,
    c1: 2,
    crossed: true,
});

const NARROWED: Rule = Rule::Narrowed(Shift { top: 7, k: 3 }, 4);

const CHAINED: Rule = Rule::Chained(Shift { top: 3, k: 1 }, Shift { top: 7, k: 1 });

// The boxes of a width: the width of all but the last, the last width, and the count.
macro_rules! cut {
    ($width:literal: $wide:literal, $last:literal, $count:literal) => {
        Claim::Boxes(
            $width,
            Shape {
                wide: $wide,
                last: $last,
                count: $count,
            },
        )
    };
}

// The twelve marked cases, one table, with one theorem: every claim of each case is right by the definitions.
pub fn marked_cases() -> [&'static [Claim]; 12]
    ensures table { map (λ case. case.now) result ≡ marked }
    ensures right { AllByRecursion AllHold marked }
{
    all_hold();
    [
        &[
            Claim::Sends(Rule::Inverse(5), 2, 18),
            Claim::Sends(Rule::Inverse(14), 2, 8_208),
            Claim::Sends(Rule::Inverse(25), 2, 16_777_220),
        ],
        &[Claim::Sends(Rule::Inverse(8), 0x53, 0xca)],
        &[Claim::Sends(Rule::CpaBox(5, 0, 15), 2, 4)],
        &[Claim::Sends(Rule::CpaBox(5, 0, 24), 0, 3)],
        &[cut!(24: 8, 8, 3), cut!(25: 25, 25, 1), cut!(64: 8, 8, 8)],
        &[cut!(26: 8, 10, 3), cut!(59: 9, 14, 6)],
        &[
            Claim::Sends(Rule::ThreeTurned(24), 1, 2),
            Claim::Sends(Rule::ThreeTurned(24), 4, 1),
        ],
        &[
            Claim::Sends(FIRST_KEY_BYTE, 0, 1),
            Claim::Sends(FIRST_KEY_BYTE, 33_554_431, 0),
        ],
        &[Claim::Sends(PLAIN_CPA, 1, 9_586_998)],
        &[
            Claim::Sends(CROSSED, 0, 141),
            Claim::Sends(CROSSED, 1, 140),
            Claim::Sends(CROSSED, 2, 72_057_594_054_770_828),
        ],
        &[
            Claim::Sends(NARROWED, 0, 3),
            Claim::Sends(NARROWED, 1, 4),
            Claim::Sends(NARROWED, 2, 0),
            Claim::Sends(NARROWED, 3, 1),
            Claim::Sends(NARROWED, 4, 2),
        ],
        &[
            Claim::Sends(CHAINED, 3, 1),
            Claim::Sends(CHAINED, 5, 6),
            Claim::Sends(CHAINED, 7, 0),
        ],
    ]
}

fn all_hold()
    ensures { AllByRecursion AllHold marked }
{}
