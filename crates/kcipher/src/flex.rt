// The Flex flow.
ghost use Rattle.std.specs.Prelude.{◌≡◌};
ghost use Rattle.flows.specs.Flows.{flex_encrypt, flex_decrypt};
ghost use Rattle.bits.specs.Listed.{order};
ghost use Rattle.boxes.specs.Boxes.{flex_box};
ghost use Rattle.flows.specs.Steps.{added, reordered, substituted, masked, flex_steps};
ghost use Rattle.meanings.specs.Meaning.{Equal};
ghost use Rattle.flows.proofs.Flows.{flex_comes};
ghost use Rattle.kcipher.specs.Settings.{numbers, fits};

use crate::block::{Block, Map};
use crate::setting::{Setting, in_turn};
use crate::steps::{Addition, Masking, Reordering, Substitution};
use bits::width::Width;
use boxes::kind::Flex;
use codings::chain::Chain;
use codings::coding::Coding;

// Two rounds, and a mask.
#[derive(Clone, Copy)]
pub struct FlexFlow {
    setting: Setting,
}

impl FlexFlow {
    pub(crate) fn new(setting: Setting) -> Self
        ensures { result.setting ≡ setting }
    {
        FlexFlow { setting }
    }
}

impl Map for FlexFlow {
    ghost bits = { λ s. s.setting.width.bits };

    ghost does = { λ s. flex_encrypt (numbers s.setting) };

    ghost undoes = { λ s. flex_decrypt (numbers s.setting) };

    ghost undone = { λ s. (flex_comes (numbers s.setting) (fits s.setting)).undone };

    fn width(&self) -> Width {
        self.setting.width
    }

    fn send(&self, x: u64) -> u64 {
        let s = &self.setting;
        let u = s.width.add(x, s.c0);
        let v = s.width.add(u, s.k0);
        let w = s.order0.apply(v);
        let a = s.boxes.send(&Flex, w);
        let b = s.order1.apply(a);
        let c = s.width.add(b, s.k1);
        let d = s.order2.apply(c);
        let e = s.boxes.send(&Flex, d);
        let f = s.order3.apply(e);
        f ^ s.k2
    }

    fn back(&self, y: u64) -> u64 {
        let s = &self.setting;
        let f = y ^ s.k2;
        let e = s.order3.undo(f);
        let d = s.boxes.back(&Flex, e);
        let c = s.order2.undo(d);
        let b = s.width.sub(c, s.k1);
        let a = s.order1.undo(b);
        let w = s.boxes.back(&Flex, a);
        let v = s.order0.undo(w);
        let u = s.width.sub(v, s.k0);
        s.width.sub(u, s.c0)
    }
}

// The steps of Flex, each a coding of its own.
#[derive(Drop)]
pub struct FlexSteps {
    pub add_c0: Block<Addition>,
    pub add_k0: Block<Addition>,
    pub order0: Block<Reordering>,
    pub boxes0: Block<Substitution<Flex>>,
    pub order1: Block<Reordering>,
    pub add_k1: Block<Addition>,
    pub order2: Block<Reordering>,
    pub boxes1: Block<Substitution<Flex>>,
    pub order3: Block<Reordering>,
    pub mask_k2: Block<Masking>,
}

// One after the other.
pub type FlexChain = Chain<
    Block<Addition>,
    Chain<
        Block<Addition>,
        Chain<
            Block<Reordering>,
            Chain<
                Block<Substitution<Flex>>,
                Chain<
                    Block<Reordering>,
                    Chain<
                        Block<Addition>,
                        Chain<
                            Block<Reordering>,
                            Chain<
                                Block<Substitution<Flex>>,
                                Chain<Block<Reordering>, Block<Masking>>,
                            >,
                        >,
                    >,
                >,
            >,
        >,
    >,
>;

impl Block<FlexFlow> {
    // The steps of the cipher.
    pub fn steps(&self) -> FlexSteps
        ensures add_c0 { ⟦<Block<Addition> as Coding>⟧.means result.add_c0 ≡ added self.now.map.setting.width.bits self.now.map.setting.c0 }
        ensures add_k0 { ⟦<Block<Addition> as Coding>⟧.means result.add_k0 ≡ added self.now.map.setting.width.bits self.now.map.setting.k0 }
        ensures order0 { ⟦<Block<Reordering> as Coding>⟧.means result.order0 ≡ reordered self.now.map.setting.width.bits (order self.now.map.setting.order0) }
        ensures boxes0 { ⟦<Block<Substitution<Flex>> as Coding>⟧.means result.boxes0 ≡ substituted self.now.map.setting.width.bits flex_box flex_box }
        ensures order1 { ⟦<Block<Reordering> as Coding>⟧.means result.order1 ≡ reordered self.now.map.setting.width.bits (order self.now.map.setting.order1) }
        ensures add_k1 { ⟦<Block<Addition> as Coding>⟧.means result.add_k1 ≡ added self.now.map.setting.width.bits self.now.map.setting.k1 }
        ensures order2 { ⟦<Block<Reordering> as Coding>⟧.means result.order2 ≡ reordered self.now.map.setting.width.bits (order self.now.map.setting.order2) }
        ensures boxes1 { ⟦<Block<Substitution<Flex>> as Coding>⟧.means result.boxes1 ≡ substituted self.now.map.setting.width.bits flex_box flex_box }
        ensures order3 { ⟦<Block<Reordering> as Coding>⟧.means result.order3 ≡ reordered self.now.map.setting.width.bits (order self.now.map.setting.order3) }
        ensures mask_k2 { ⟦<Block<Masking> as Coding>⟧.means result.mask_k2 ≡ masked self.now.map.setting.width.bits self.now.map.setting.k2 }
    {
        let s = &self.map.setting;
        FlexSteps {
            add_c0: s.adds(s.c0),
            add_k0: s.adds(s.k0),
            order0: s.reorders(s.order0),
            boxes0: s.substitutes(Flex),
            order1: s.reorders(s.order1),
            add_k1: s.adds(s.k1),
            order2: s.reorders(s.order2),
            boxes1: s.substitutes(Flex),
            order3: s.reorders(s.order3),
            mask_k2: s.masks(s.k2),
        }
    }

    // The chain of the steps, which is the cipher.
    pub fn chain(&self) -> FlexChain
        ensures steps { ⟦<FlexChain as Coding>⟧.means result ≡ flex_steps (numbers self.now.map.setting) }
        ensures equal { Equal (⟦<FlexChain as Coding>⟧.means result) (⟦<Block<FlexFlow> as Coding>⟧.means self.now) }
    {
        let s = self.steps();
        in_turn(
            s.add_c0,
            in_turn(
                s.add_k0,
                in_turn(
                    s.order0,
                    in_turn(
                        s.boxes0,
                        in_turn(
                            s.order1,
                            in_turn(
                                s.add_k1,
                                in_turn(s.order2, in_turn(s.boxes1, in_turn(s.order3, s.mask_k2))),
                            ),
                        ),
                    ),
                ),
            ),
        )
    }
}
