use crate::EntrySink;
use rec_types::{Key, RecordSink};
use tx_log::TxLog;

/// What takes the records of a table, and hands each on with the transaction that owns its key by a log.
#[derive(Drop)]
pub(super) struct Owned<'a> {
    pub(super) log: &'a TxLog,
}

impl<'a, K: EntrySink> RecordSink<K> for Owned<'a> {
    ghost use Rattle.std.specs.Prelude.{◌≡◌};
    ghost use Rattle.std.proofs.Common.{refl, sym, subst, ◌∙◌};
    ghost use Rattle.record_file.specs.OwnedRecords.{owned_by, owned_both};

    type Fault = K::Fault;

    ghost told = { λ old out es new behind. (new.log.now ≡ old.log.now)
        × K.told out (owned_by old.log.now es) behind };

    ghost stops = { λ old out es fault new behind. (new.log.now ≡ old.log.now)
        × K.stops out (owned_by old.log.now es) fault behind };

    fn take(&mut self, out: &mut K, key: &Key, bytes: &[u8]) -> Result<(), K::Fault> {
        out.take(key, bytes, self.log.owner(key))
    }

    ghost told_none = { λ sink out. (refl, K.told_none out) };

    ghost told_on = { λ a b c p q r es fs one two. (
      two.0 ∙ one.0,
      subst (λ xs. K.told p xs r) (sym (owned_both a.log.now es fs))
          (K.told_on p q r (owned_by a.log.now es) (owned_by a.log.now fs) one.1
          (subst (λ log. K.told q (owned_by log fs) r) one.0 two.1)),
    ) };

    ghost stops_on = { λ a b c p q r es fs fault one two. (
      two.0 ∙ one.0,
      subst (λ xs. K.stops p xs fault r) (sym (owned_both a.log.now es fs))
          (K.stops_on p q r (owned_by a.log.now es) (owned_by a.log.now fs) fault one.1
          (subst (λ log. K.stops q (owned_by log fs) fault r) one.0 two.1)),
    ) };

    ghost stops_before = { λ a b p q es fs fault one. (
      one.0,
      subst (λ xs. K.stops p xs fault q) (sym (owned_both a.log.now es fs))
          (K.stops_before p q (owned_by a.log.now es) (owned_by a.log.now fs) fault one.1),
    ) };
}
