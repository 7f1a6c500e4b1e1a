//! What core.p4 and v1model.p4 declare before each source.
ghost use Rattle.std.specs.Prelude.{◌≡◌, IfOk, map, Ok};
ghost use Rattle.p4_rules.specs.declared.faults.Pass.TheVariants.{Checking};
ghost use Rattle.p4_rules.specs.Core.{core_scope as scope_by_rules, core_names as names_by_rules};
ghost use Rattle.p4_rules.specs.Core.{core_errors as errors_by_rules, standard_metadata as metadata_by_rules};
ghost use Rattle.p4_rules.specs.Core.{algorithms as algorithms_by_rules, counter_types as counters_by_rules};
ghost use Rattle.p4_rules.specs.Core.{meter_types as meters_by_rules, all_allowed as all_allowed_by_rules};
ghost use Rattle.p4_rules.specs.Chains.{no_depths as no_depths_by_rules};
ghost use Rattle.p4_rules.specs.Scopes.{ConstantOf};
ghost use Rattle.p4_rules.specs.declared.types.SourceType.TheVariants.{Enumeration, Opaque};
ghost use Rattle.p4_consts.specs.declared.meanings.Meaning.TheVariants as meaning;
ghost use Rattle.p4_consts.specs.Meanings.{meaning_of as as_by_rules};
ghost use Rattle.p4_consts.specs.Predeclared.{in_order};
ghost use Rattle.p4_consts.specs.Scopes.{scope_in, depths_of, told_names, members_of, fields_of};

use crate::constants::Constant;
use crate::meanings::Meaning;
use crate::names::Names;
use crate::numbered::Numbered;
use crate::scopes::{Depths, Scope};
use p4_rules::{Allowed, Fault, Function, Here, Object, SourceType};
use sqlite_items::Items;
use std::alloc::{AllocError, Global};

/// The scope before a source that has so many errors: what core.p4 and v1model.p4 declare.
pub fn core_scope(alloc: Global, error_count: u32) -> Result<Scope, AllocError>
    ensures { IfOk result (λ scope. scope_in Checking scope ≡ scope_by_rules error_count) }
{
    let mut structs = Vec::new(alloc);
    structs.push(standard_metadata(alloc)?)?;
    let mut enumerations = Vec::new(alloc);
    enumerations.push(algorithms(alloc)?)?;
    enumerations.push(counter_types(alloc)?)?;
    enumerations.push(meter_types(alloc)?)?;
    let mut shapes = Numbered::new(alloc);
    shapes.add(0, Items::new(alloc))?;
    let (errors, top) = (core_errors(alloc)?, core_names(alloc)?);
    Ok(Scope {
        structs,
        headers: Vec::new(alloc),
        enumerations,
        errors,
        error_count,
        top,
        inner: Vec::new(alloc),
        shapes,
        table_actions: Vec::new(alloc),
        depths: no_depths(alloc),
        here: Here::AtTop,
        allowed: all_allowed(),
        statement: 1,
        variable: 0,
        callable: 1,
        table: 0,
        child: 0,
    })
}

/// No chain of calls.
fn no_depths(alloc: Global) -> Depths
    ensures { depths_of result ≡ no_depths_by_rules }
{
    Depths {
        callables: Numbered::new(alloc),
        tables: Numbered::new(alloc),
        children: Numbered::new(alloc),
    }
}

/// Every call may stand where nothing forbids it.
fn all_allowed() -> Allowed
    ensures { result ≡ all_allowed_by_rules }
{
    Allowed {
        verify_checksum: true,
        update_checksum: true,
        emit: true,
    }
}

/// The metadata of the switch (v1model.p4, `standard_metadata_t`).
fn standard_metadata(alloc: Global) -> Result<Names<SourceType>, AllocError>
    ensures { IfOk result (λ names. fields_of names ≡ metadata_by_rules) }
{
    let fields = [
        ("ingress_port", SourceType::Bit(9)),
        ("egress_spec", SourceType::Bit(9)),
        ("egress_port", SourceType::Bit(9)),
        ("instance_type", SourceType::Bit(32)),
        ("packet_length", SourceType::Bit(32)),
        ("enq_timestamp", SourceType::Bit(32)),
        ("enq_qdepth", SourceType::Bit(19)),
        ("deq_timedelta", SourceType::Bit(32)),
        ("deq_qdepth", SourceType::Bit(19)),
        ("ingress_global_timestamp", SourceType::Bit(48)),
        ("egress_global_timestamp", SourceType::Bit(48)),
        ("mcast_grp", SourceType::Bit(16)),
        ("egress_rid", SourceType::Bit(16)),
        ("checksum_error", SourceType::Bit(1)),
        ("parser_error", SourceType::Error),
        ("priority", SourceType::Bit(3)),
    ];
    names_of(alloc, &fields)
}

/// The algorithms of checksums that are kept (v1model.p4, `HashAlgorithm`).
fn algorithms(alloc: Global) -> Result<Names<Meaning>, AllocError>
    ensures { IfOk result (λ names. members_of names ≡ algorithms_by_rules) }
{
    names_of(alloc, &[("csum16", member(0, 0)), ("xor16", member(0, 1))])
}

/// v1model.p4, `CounterType`.
fn counter_types(alloc: Global) -> Result<Names<Meaning>, AllocError>
    ensures { IfOk result (λ names. members_of names ≡ counters_by_rules) }
{
    let members = [
        ("packets", member(1, 0)),
        ("bytes", member(1, 1)),
        ("packets_and_bytes", member(1, 2)),
    ];
    names_of(alloc, &members)
}

/// v1model.p4, `MeterType`.
fn meter_types(alloc: Global) -> Result<Names<Meaning>, AllocError>
    ensures { IfOk result (λ names. members_of names ≡ meters_by_rules) }
{
    names_of(alloc, &[("packets", member(2, 0)), ("bytes", member(2, 1))])
}

/// A member of the enumeration with this number.
fn member(enumeration: u32, value: u128) -> Meaning
    ensures { as_by_rules result ≡ ConstantOf (Enumeration enumeration) value }
{
    Meaning::ConstantOf(Constant {
        type_of: SourceType::Enumeration(enumeration),
        value,
    })
}

/// The errors that each source has (core.p4).
fn core_errors(alloc: Global) -> Result<Names<()>, AllocError>
    ensures { IfOk result (λ names. map (λ e. e.0) names ≡ errors_by_rules) }
{
    let errors = [
        ("NoError", ()),
        ("PacketTooShort", ()),
        ("NoMatch", ()),
        ("StackOutOfBounds", ()),
        ("HeaderTooShort", ()),
        ("ParserTimeout", ()),
        ("ParserInvalidArgument", ()),
    ];
    names_of(alloc, &errors)
}

/// The names at the top before a source: the action `NoAction`, types and functions.
fn core_names(alloc: Global) -> Result<Names<Result<Meaning, Fault>>, AllocError>
    ensures { IfOk result (λ names. told_names names ≡ names_by_rules) }
{
    let names = [
        ("NoAction", Ok(Meaning::ActionOf(0))),
        ("packet_in", object(Object::PacketIn)),
        ("packet_out", object(Object::PacketOut)),
        ("standard_metadata_t", named(SourceType::Structure(0))),
        ("V1Switch", object(Object::Package)),
        ("counter", object(Object::Counter)),
        ("direct_counter", object(Object::DirectCounter)),
        ("meter", object(Object::Meter)),
        ("register", object(Object::Register)),
        ("HashAlgorithm", named(SourceType::Enumeration(0))),
        ("CounterType", named(SourceType::Enumeration(1))),
        ("MeterType", named(SourceType::Enumeration(2))),
        ("verify", function(Function::Verify)),
        ("mark_to_drop", function(Function::MarkToDrop)),
        ("verify_checksum", function(Function::VerifyChecksum)),
        ("update_checksum", function(Function::UpdateChecksum)),
        ("log_msg", function(Function::LogMsg)),
        ("random", function(Function::Random)),
        ("clone", function(Function::LeftOut)),
        ("clone3", function(Function::LeftOut)),
        ("clone_preserving_field_list", function(Function::LeftOut)),
        ("resubmit", function(Function::LeftOut)),
        (
            "resubmit_preserving_field_list",
            function(Function::LeftOut),
        ),
        ("recirculate", function(Function::LeftOut)),
        (
            "recirculate_preserving_field_list",
            function(Function::LeftOut),
        ),
        ("digest", function(Function::LeftOut)),
        ("truncate", function(Function::LeftOut)),
        ("hash", function(Function::LeftOut)),
        ("assert", function(Function::LeftOut)),
        ("assume", function(Function::LeftOut)),
        ("verify_checksum_with_payload", function(Function::LeftOut)),
        ("update_checksum_with_payload", function(Function::LeftOut)),
    ];
    names_of(alloc, &names)
}

/// A type of this name.
fn named(t: SourceType) -> Result<Meaning, Fault>
    ensures { result ≡ Ok (meaning.TypeOf t) }
{
    Ok(Meaning::TypeOf(t))
}

/// A type of values that no run has.
fn object(object: Object) -> Result<Meaning, Fault>
    ensures { result ≡ Ok (meaning.TypeOf (Opaque object)) }
{
    named(SourceType::Opaque(object))
}

/// A function of this name.
fn function(function: Function) -> Result<Meaning, Fault>
    ensures { result ≡ Ok (meaning.FunctionOf function) }
{
    Ok(Meaning::FunctionOf(function))
}

/// Names one after the other.
#[tactic(auto, using(crate::proofs::PredeclaredLaws::next_entry))]
fn names_of<V: Copy + Drop>(alloc: Global, table: &[(&str, V)]) -> Result<Names<V>, AllocError>
    ensures { IfOk result (λ names. names ≡ in_order (map (λ e. (e.0.now, e.1)) table.now)) }
{
    let mut names = Names::new(alloc);
    for (name, value) in table {
        names.declare(alloc, name.as_bytes(), *value)?;
    }
    Ok(names)
}
