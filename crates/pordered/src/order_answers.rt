// What an operation that wants the order of the keys is answered, found without memory.
ghost use Rattle.std.specs.Prelude.{◌≡◌, [], None, MatchOption};
ghost use Rattle.mont_base.specs.declared.operation.Reply.TheVariants.{Nothing, Key};
ghost use Rattle.mont_laws.specs.Effects.{IsOpOf};
ghost use Rattle.structure_call.specs.Planning.{IsPlan};
ghost use Rattle.shard_map.specs.MapCall.{AsksKey};

use mont_base::{Op, Reply, Text};
use order_index::OrderIndex;
use shard_map::MapShard;

// The reply of such an operation; none for one that asks for a key.
pub(crate) fn answer_of(unit: &MapShard<OrderIndex>, op: &Op) -> Option<Reply>
    requires op { IsOpOf unit.now.region.books.layout unit.now.region.books.unit op.now }
    ensures { MatchOption result (AsksKey op.now) (λ reply.
        unit.now.region.books.halted ≡ None → IsPlan unit.now.region op.now reply []) }
{
    let index = unit.index();
    match op {
        Op::OFloor { key, .. } => Some(key_reply(index.floor(*key))),
        Op::ORank { key, .. } => Some(Reply::Count {
            number: index.rank(*key),
        }),
        Op::ORange { from, to, most, .. } => Some(Reply::Pairs {
            number: index.stretch(*from, *to).len().min(*most),
        }),
        _ => None,
    }
}

// The reply that tells the key of an entry, if there is one.
fn key_reply(found: Option<(Text, u64)>) -> Reply
    ensures { MatchOption found (result ≡ Nothing) (λ entry. result ≡ Key entry.0) }
{
    match found {
        Some((key, _)) => Reply::Key { key },
        None => Reply::Nothing,
    }
}
