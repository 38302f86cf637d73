//! `==` of operations, answers and entries is exact.
use crate::answer::{Answer, OpFault};
use crate::log::{Entry, Logged};
use crate::op::Op;
use hub_text::Exact;

impl Exact for OpFault {
    ghost use Rattle.hub_text.specs.laws.Exact.{tags_exact};
    ghost use Rattle.hub_job.specs.contracts.answer.OpFault.{enum};

    ghost exact = { tags_exact enum tt };
}

impl Exact for Answer {
    ghost use Rattle.hub_text.specs.laws.Exact.{variants_exact, no_field, last_field, items_exact, nat_exact};
    ghost use Rattle.hub_job.specs.contracts.answer.Answer.{enum};
    ghost use Rattle.hub_job.specs.contracts.exact.OpFaultExact.TheImpl.Laws as fault;
    ghost use Rattle.hub_job.specs.contracts.sight.SightExact.TheImpl.Laws as sight;

    ghost exact = { variants_exact enum _ (
      last_field sight.exact-law,
      (last_field (items_exact nat_exact), (no_field, (last_field fault.exact-law, tt))),
    ) };
}

impl Exact for Op {
    ghost use Rattle.hub_text.specs.laws.Exact.{variants_exact, last_field, next_field, items_exact, nat_exact};
    ghost use Rattle.hub_job.specs.contracts.op.Op.{enum};
    ghost use Rattle.hub_tree.specs.contracts.contents.ContentsExact.TheImpl.Laws as contents;

    ghost exact = { variants_exact enum _ (
      last_field (items_exact (items_exact nat_exact)),
      (
        last_field (items_exact (items_exact nat_exact)),
        (next_field (items_exact (items_exact nat_exact)) (last_field contents.exact-law), tt),
      ),
    ) };
}

impl Exact for Entry {
    ghost use Rattle.hub_job.specs.laws.Exact.{entry_exact};
    ghost use Rattle.hub_job.specs.contracts.exact.OpExact.TheImpl.Laws as op;
    ghost use Rattle.hub_job.specs.contracts.exact.AnswerExact.TheImpl.Laws as answer;

    ghost exact = { entry_exact op.exact-law answer.exact-law };
}

impl Exact for Logged {
    ghost use Rattle.hub_job.specs.laws.Exact.{logged_exact};
    ghost use Rattle.hub_path.specs.contracts.side.SideExact.TheImpl.Laws as side;
    ghost use Rattle.hub_job.specs.contracts.exact.EntryExact.TheImpl.Laws as entry;

    ghost exact = { logged_exact side.exact-law entry.exact-law };
}
