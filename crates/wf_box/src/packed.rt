//! Candidates of an execution's points, packed in one integer.

ghost use Rattle.std.specs.Prelude.{◌≡◌, ◌<◌, length};
ghost use Rattle.std.proofs.Common.{ap, eqb-true};
ghost use Rattle.wf_lane.specs.Table.{HasSupported};
ghost use Rattle.wf_network.specs.Problems.{IsNetwork, constraints_in, rule_at};
ghost use Rattle.wf_network.specs.Revising.{AreKnown, answers_in, nibbles_in, parts_in, widened};

use wf_base::set::set64::Set64;
use wf_network::{
    Network, SupportCache, supported_nibbles, supported_word, unpacked, unpacked_nibbles,
};

/// The candidates of an execution's four points in one integer: 4 bits for each point in a `u16`,
/// 16 in a `u64`.
pub(crate) trait Packed: Copy + PartialEq {
    ghost use Rattle.std.specs.Prelude.{ℕ, List, true};

    // the bit masks that are packed, one for each point
    ghost parts: { Self → List ℕ };

    /// Returns those of the candidates that the rule with index `rule` supports.
    fn supported(self, rule: u32, network: &Network, memo: &mut SupportCache) -> Self
        requires network { IsNetwork network.now }
        requires rule { rule < length network.now.rules.items }
        requires known { AreKnown (constraints_in network.now) (answers_in memo.old) }
        ensures supported { HasSupported (widened (parts result))
            (rule_at network.now rule).table (widened (parts self)) }
        ensures known { AreKnown (constraints_in network.now) (answers_in memo.new) };

    /// Unpacks the bit mask of each point.
    fn unpacked(self) -> [Set64; 4]
        ensures parts { result ≡ parts self }
        ensures long { length result ≡ 4 };

    // equal integers have the same bit masks
    ghost same_parts: { (a b : Self) → Self.eq a b ≡ true → parts a ≡ parts b };
}

/// Candidates below 4.
impl Packed for u16 {
    ghost parts = { nibbles_in };

    #[inline(always)]
    fn supported(self, rule: u32, network: &Network, memo: &mut SupportCache) -> u16 {
        supported_nibbles(rule, self, network, memo)
    }

    #[inline(always)]
    fn unpacked(self) -> [Set64; 4] {
        unpacked_nibbles(self)
    }

    ghost same_parts = { λ a b same. ap nibbles_in (eqb-true a b same) };
}

/// Candidates below 16.
impl Packed for u64 {
    ghost parts = { parts_in };

    #[inline(always)]
    fn supported(self, rule: u32, network: &Network, memo: &mut SupportCache) -> u64 {
        supported_word(rule, self, network, memo)
    }

    #[inline(always)]
    fn unpacked(self) -> [Set64; 4] {
        unpacked(self)
    }

    ghost same_parts = { λ a b same. ap parts_in (eqb-true a b same) };
}
