//! How a question is decided.
ghost use Rattle.std.specs.Prelude.{◌≡◌, ◌<◌, ◌++◌, List, IfOk, OnErr, length};
ghost use Rattle.bits_core.specs.declared.points.Point.{Point as Place};
ghost use Rattle.proof_stream.specs.Valid.{IsAtOf};
ghost use Rattle.term_dag.specs.Width.{IsDag, width_of};
ghost use Rattle.term_dag.specs.declared.node.Node.{Node as NodeValue};
ghost use Rattle.query_engine.specs.Logged.{Logs};
ghost use Rattle.query_engine.specs.Question.{FixesInputs, IfNo, IfYes, IsYesAt};

use crate::ask::{ask, constant_answer};
use crate::base::Base;
use crate::clauses::question_clauses;
use crate::question::{Decided, Question};
use bit_blaster::bits_of;
use proof_stream::ProofLog;
use std::alloc::{AllocError, Global};

/// Decides whether the question's term is 1 at some point that it asks about, by at most `allowance` cubes, and adds a record to
/// the log but where the fixed bits leave a constant.
pub fn decide(
    alloc: Global,
    base: &mut Base,
    question: &Question,
    allowance: u32,
    log: &mut ProofLog,
) -> Result<Decided, AllocError>
    requires within { question.now.term.number < length base.old.domain.dag }
    requires one_bit { width_of base.old.domain.dag question.now.term ≡ 1 }
    requires at { IsAtOf question.now.kind question.now.at }
    requires inputs { FixesInputs base.old.domain.dag question.now.term question.now.at }
    ensures keeps { (more : List NodeValue)
        × (base.new.domain.dag ≡ base.old.domain.dag ++ more) }
    ensures dag { IsDag base.new.domain.dag }
    ensures yes { IfOk result (λ d. IfYes d (IsYesAt base.new.domain.dag question.now)) }
    ensures no { IfOk result (λ d. IfNo d ((p : Place)
        → ¬ IsYesAt base.new.domain.dag question.now p)) }
    ensures log { IfOk result (λ d. Logs base.new.domain.dag question.now allowance d
        log.old log.new) }
    ensures log_stays { OnErr result (log.new ≡ log.old) }
{
    let _ = base.domain.dag.len();
    let all = bits_of(alloc, &base.domain.dag, question.term)?;
    let blasted = question_clauses(alloc, base, question, all.as_slice())?;
    let dag = &base.domain.dag;
    if blasted.vars.is_empty() {
        constant_answer(alloc, dag, question, all.as_slice())
    } else {
        ask(
            alloc,
            dag,
            question,
            all.as_slice(),
            blasted,
            allowance,
            log,
        )
    }
}
