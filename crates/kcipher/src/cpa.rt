// The CPA flow.
ghost use Rattle.std.specs.Prelude.{◌≡◌, ◌^◌, ◌<◌, [], ◌∷◌};
ghost use Rattle.bits.specs.Listed.{order};
ghost use Rattle.bits.specs.Orders.{moved};
ghost use Rattle.flows.specs.Steps.{added, reordered, substituted, masked};
ghost use Rattle.meanings.specs.Meaning.{Equal};

use crate::block::{Block, Map};
use crate::setting::{Setting, in_turn};
use crate::steps::{Addition, Masking, Reordering, Substitution};
use bits::width::Width;
use boxes::kind::Cpa;
use codings::chain::Chain;
use codings::coding::Coding;

// Three rounds with boxes of their own, and the veil.
#[derive(Clone, Copy)]
pub struct CpaFlow {
    setting: Setting,
    round0: Cpa,
    round1: Cpa,
    round2: Cpa,
}

impl CpaFlow {
    pub(crate) fn new(setting: Setting, rounds: [Cpa; 3]) -> Self
        ensures { (result.setting ≡ setting) × (result.round0 ∷ (result.round1 ∷ (result.round2 ∷ [])) ≡ rounds) }
    {
        let [round0, round1, round2] = rounds;
        CpaFlow {
            setting,
            round0,
            round1,
            round2,
        }
    }

    // K2 sent through order 3.
    fn veil(&self) -> u64
        ensures is { result ≡ moved (order self.now.setting.order3) self.now.setting.k2 }
        ensures small { result < 2 ^ self.now.setting.width.bits }
    {
        self.setting.order3.apply(self.setting.k2)
    }
}

impl Map for CpaFlow {
    ghost use Rattle.kcipher.specs.Rounds.{cpa_does, cpa_undoes, cpa_undone};

    ghost bits = { λ s. s.setting.width.bits };

    ghost does = { cpa_does };

    ghost undoes = { cpa_undoes };

    ghost undone = { cpa_undone };

    fn width(&self) -> Width {
        self.setting.width
    }

    fn send(&self, x: u64) -> u64 {
        let s = &self.setting;
        let u = s.width.add(x, s.c0);
        let v = s.width.add(u, s.k0);
        let w = s.order0.apply(v);
        let a = s.boxes.send(&self.round0, w);
        let b = s.width.add(a, s.k1);
        let c = s.order1.apply(b);
        let d = s.boxes.send(&self.round1, c);
        let e = s.width.add(d, s.k2);
        let f = s.order2.apply(e);
        let g = s.boxes.send(&self.round2, f);
        g ^ self.veil()
    }

    fn back(&self, y: u64) -> u64 {
        let s = &self.setting;
        let g = y ^ self.veil();
        let f = s.boxes.back(&self.round2, g);
        let e = s.order2.undo(f);
        let d = s.width.sub(e, s.k2);
        let c = s.boxes.back(&self.round1, d);
        let b = s.order1.undo(c);
        let a = s.width.sub(b, s.k1);
        let w = s.boxes.back(&self.round0, a);
        let v = s.order0.undo(w);
        let u = s.width.sub(v, s.k0);
        s.width.sub(u, s.c0)
    }
}

// The steps of CPA, each a coding of its own.
#[derive(Drop)]
pub struct CpaSteps {
    pub add_c0: Block<Addition>,
    pub add_k0: Block<Addition>,
    pub order0: Block<Reordering>,
    pub boxes0: Block<Substitution<Cpa>>,
    pub add_k1: Block<Addition>,
    pub order1: Block<Reordering>,
    pub boxes1: Block<Substitution<Cpa>>,
    pub add_k2: Block<Addition>,
    pub order2: Block<Reordering>,
    pub boxes2: Block<Substitution<Cpa>>,
    pub mask_veil: Block<Masking>,
}

// One after the other.
pub type CpaChain = Chain<
    Block<Addition>,
    Chain<
        Block<Addition>,
        Chain<
            Block<Reordering>,
            Chain<
                Block<Substitution<Cpa>>,
                Chain<
                    Block<Addition>,
                    Chain<
                        Block<Reordering>,
                        Chain<
                            Block<Substitution<Cpa>>,
                            Chain<
                                Block<Addition>,
                                Chain<
                                    Block<Reordering>,
                                    Chain<Block<Substitution<Cpa>>, Block<Masking>>,
                                >,
                            >,
                        >,
                    >,
                >,
            >,
        >,
    >,
>;

impl Block<CpaFlow> {
    ghost use Rattle.kcipher.specs.Rounds.{box, box_back, cpa_chain};

    // The steps of the cipher.
    pub fn steps(&self) -> CpaSteps
        ensures add_c0 { ⟦<Block<Addition> as Coding>⟧.means result.add_c0 ≡ added self.now.map.setting.width.bits self.now.map.setting.c0 }
        ensures add_k0 { ⟦<Block<Addition> as Coding>⟧.means result.add_k0 ≡ added self.now.map.setting.width.bits self.now.map.setting.k0 }
        ensures order0 { ⟦<Block<Reordering> as Coding>⟧.means result.order0 ≡ reordered self.now.map.setting.width.bits (order self.now.map.setting.order0) }
        ensures boxes0 { ⟦<Block<Substitution<Cpa>> as Coding>⟧.means result.boxes0 ≡ substituted self.now.map.setting.width.bits (box self.now.map.round0) (box_back self.now.map.round0) }
        ensures add_k1 { ⟦<Block<Addition> as Coding>⟧.means result.add_k1 ≡ added self.now.map.setting.width.bits self.now.map.setting.k1 }
        ensures order1 { ⟦<Block<Reordering> as Coding>⟧.means result.order1 ≡ reordered self.now.map.setting.width.bits (order self.now.map.setting.order1) }
        ensures boxes1 { ⟦<Block<Substitution<Cpa>> as Coding>⟧.means result.boxes1 ≡ substituted self.now.map.setting.width.bits (box self.now.map.round1) (box_back self.now.map.round1) }
        ensures add_k2 { ⟦<Block<Addition> as Coding>⟧.means result.add_k2 ≡ added self.now.map.setting.width.bits self.now.map.setting.k2 }
        ensures order2 { ⟦<Block<Reordering> as Coding>⟧.means result.order2 ≡ reordered self.now.map.setting.width.bits (order self.now.map.setting.order2) }
        ensures boxes2 { ⟦<Block<Substitution<Cpa>> as Coding>⟧.means result.boxes2 ≡ substituted self.now.map.setting.width.bits (box self.now.map.round2) (box_back self.now.map.round2) }
        ensures mask_veil { ⟦<Block<Masking> as Coding>⟧.means result.mask_veil ≡ masked self.now.map.setting.width.bits (moved (order self.now.map.setting.order3) self.now.map.setting.k2) }
    {
        let s = &self.map.setting;
        CpaSteps {
            add_c0: s.adds(s.c0),
            add_k0: s.adds(s.k0),
            order0: s.reorders(s.order0),
            boxes0: s.substitutes(self.map.round0),
            add_k1: s.adds(s.k1),
            order1: s.reorders(s.order1),
            boxes1: s.substitutes(self.map.round1),
            add_k2: s.adds(s.k2),
            order2: s.reorders(s.order2),
            boxes2: s.substitutes(self.map.round2),
            mask_veil: s.masks(self.map.veil()),
        }
    }

    // The chain of the steps, which is the cipher.
    pub fn chain(&self) -> CpaChain
        ensures steps { ⟦<CpaChain as Coding>⟧.means result ≡ cpa_chain self.now.map }
        ensures equal { Equal (⟦<CpaChain as Coding>⟧.means result) (⟦<Block<CpaFlow> as Coding>⟧.means self.now) }
    {
        let s = self.steps();
        in_turn(
            s.add_c0,
            in_turn(
                s.add_k0,
                in_turn(
                    s.order0,
                    in_turn(
                        s.boxes0,
                        in_turn(
                            s.add_k1,
                            in_turn(
                                s.order1,
                                in_turn(
                                    s.boxes1,
                                    in_turn(
                                        s.add_k2,
                                        in_turn(s.order2, in_turn(s.boxes2, s.mask_veil)),
                                    ),
                                ),
                            ),
                        ),
                    ),
                ),
            ),
        )
    }
}
