//! Small programs with a run of each, proved by evaluation: what the rules of runs come to.
ghost use Rattle.std.specs.Prelude.{List, [], ◌∷◌, ◌++◌, replicate};
ghost use Rattle.p4_meaning.specs.Runs.CallExamples.{applies_by, labels, stops_in, switches, two_steps, unlisted_default, updates, verifies, with_child, with_masks, with_prefixes};
ghost use Rattle.p4_meaning.specs.Runs.Examples.{program};
ghost use Rattle.p4_meaning.specs.Runs.Fills.{ones};
ghost use Rattle.p4_meaning.specs.Runs.ForwarderExample.{ethernet_bytes, forwarded_bytes, forwards, ipv4_bytes, packet_at, with_routes};
ghost use Rattle.p4_meaning.specs.Runs.Run.{RunOf, RunUnder};
ghost use Rattle.p4_meaning.specs.Runs.Shown.{Passes, SendsAt, Shows};
ghost use Rattle.p4_meaning.specs.Runs.StatementExamples.{applies_table, bounds, chooses_header, chooses_invalid, copies_out, exits_inside, fixed_by_call, fixed_by_out, gave, marked_first, no_constant_entry, port_table, pushes, reads_twice, sends_3, slice_assigned, with_entry, writes_void, zero_bytes};
ghost use Rattle.p4_meaning.specs.Runs.SwitchExamples.{bytes, copies_stack, extracts_one, fills_stack, last_of_none, looks_nowhere, looks_past, loops, multicasts, other_port_in_egress, port_in_egress, selects_none, spec_in_egress, takes_some, verifies_no_error};
ghost use Rattle.p4_program.specs.declared.outcome.Outcome.TheVariants.{Dropped, Overrun, Sent};
ghost use Rattle.p4_program.specs.BoundedInput.{opening};
ghost use Rattle.p4_program.specs.Syntax.Statements.{Exit, Return};
ghost use Rattle.p4_program.specs.declared.typed.tables.MatchKind.TheVariants.{Lpm, Ternary};

/// Runs of statements, calls, headers and tables, as they are worked out by hand.
pub fn statements()
    ensures sends_to_3 { SendsAt sends_3 [] 3 (1 ∷ []) }
    ensures copied_out_last { SendsAt copies_out [] 2 (4 ∷ 3 ∷ 1 ∷ 2 ∷ []) }
    ensures two_values { SendsAt reads_twice (gave 8 4 ∷ gave 8 6 ∷ []) 1 (1 ∷ []) }
    ensures one_value { SendsAt reads_twice (gave 8 4 ∷ gave 8 4 ∷ []) 0 [] }
    ensures call_fixes { SendsAt fixed_by_call (gave 8 9 ∷ []) 0 (1 ∷ []) }
    ensures out_fixes { SendsAt fixed_by_out (gave 8 9 ∷ []) 0 (1 ∷ []) }
    ensures slice_reads_all { SendsAt slice_assigned (gave 8 0xaf ∷ []) 0xa5 (1 ∷ 2 ∷ []) }
    ensures mark_fixes_nothing { SendsAt marked_first (gave 19 0 ∷ gave 19 1 ∷ []) 1 (1 ∷ 2 ∷ []) }
    ensures mark_drops { Shows marked_first (opening bounds) (gave 19 1 ∷ gave 19 1 ∷ [])
        Dropped (1 ∷ []) }
    ensures pushed_as_it_is { SendsAt pushes (gave 8 0 ∷ gave 8 1 ∷ []) 1 (1 ∷ 2 ∷ 3 ∷ []) }
    ensures void_write { SendsAt writes_void (gave 8 2 ∷ gave 8 3 ∷ []) 1 (1 ∷ 2 ∷ []) }
    ensures chosen_is_read_whole { SendsAt chooses_header (gave 8 7 ∷ gave 9 3 ∷ []) 3
        (1 ∷ 2 ∷ []) }
    ensures field_of_invalid { SendsAt chooses_invalid (gave 9 3 ∷ []) 3 (2 ∷ []) }
    ensures default_after_miss { SendsAt applies_table [] 5 (2 ∷ 1 ∷ []) }
    ensures action_of_hit { Shows applies_table with_entry [] (Sent 7 zero_bytes) (2 ∷ 1 ∷ []) }
    ensures constant_entries_alone { Shows no_constant_entry with_entry [] (Sent 5 zero_bytes)
        (2 ∷ 1 ∷ []) }
    ensures exit_in_argument { SendsAt exits_inside [] 4 (3 ∷ 4 ∷ 1 ∷ []) }
{}

/// Runs of parsers, with their errors, and of the drop decisions.
pub fn parsers_and_switch()
    ensures short_extract { Passes extracts_one (0xab ∷ []) 1 (0xab ∷ []) (1 ∷ 2 ∷ 3 ∷ []) }
    ensures whole_extract { Passes extracts_one (0xab ∷ 0xcd ∷ 0xef ∷ []) 0
        (0xab ∷ 0xcd ∷ 0xef ∷ []) (1 ∷ 3 ∷ []) }
    ensures rest_is_payload { Passes takes_some (1 ∷ 2 ∷ 3 ∷ []) 1 (3 ∷ []) (1 ∷ 4 ∷ 2 ∷ []) }
    ensures lookahead_too_short { Passes looks_past (0 ∷ []) 1 (0 ∷ []) (1 ∷ 2 ∷ []) }
    ensures lookahead_leaves_cursor { Passes looks_past (0 ∷ 7 ∷ []) 0 (0 ∷ 7 ∷ []) (1 ∷ []) }
    ensures no_lookahead { Passes looks_nowhere (0 ∷ []) 0 (0 ∷ []) (1 ∷ []) }
    ensures last_not_evaluated { Passes last_of_none (5 ∷ []) 1 (5 ∷ []) (1 ∷ 9 ∷ 8 ∷ []) }
    ensures counter_stays { Passes copies_stack (5 ∷ 6 ∷ 7 ∷ []) 0 (6 ∷ 7 ∷ [])
        (1 ∷ 2 ∷ 3 ∷ 8 ∷ []) }
    ensures full_stack { Passes fills_stack (5 ∷ 6 ∷ []) 1 (5 ∷ 6 ∷ []) (1 ∷ 2 ∷ 3 ∷ 9 ∷ 8 ∷ []) }
    ensures no_error_ends { Passes verifies_no_error (5 ∷ []) 0 (5 ∷ []) (1 ∷ 8 ∷ []) }
    ensures overruns { Shows loops (bytes (5 ∷ [])) [] Overrun [] }
    ensures nothing_matches { Passes selects_none (5 ∷ []) 1 (5 ∷ []) (1 ∷ []) }
    ensures spec_is_0_in_egress { Passes spec_in_egress (5 ∷ []) 3 (5 ∷ []) (1 ∷ []) }
    ensures dropped_after_egress { Shows port_in_egress (bytes (5 ∷ [])) [] Dropped (1 ∷ 2 ∷ []) }
    ensures port_of_ingress { Passes other_port_in_egress (5 ∷ []) 3 (5 ∷ []) (1 ∷ 2 ∷ 4 ∷ []) }
    ensures group_drops { Shows multicasts (bytes (5 ∷ [])) [] Dropped (1 ∷ 2 ∷ []) }
{}

/// Runs that show winners, labels, calls that stop, controls in controls, checksums and a fill.
pub fn winners_and_calls()
    ensures longest_prefix { Shows (applies_by Lpm) with_prefixes [] (Sent 7 zero_bytes)
        (2 ∷ 1 ∷ []) }
    ensures least_priority { Shows (applies_by Ternary) with_masks [] (Sent 7 zero_bytes)
        (2 ∷ 1 ∷ []) }
    ensures label_behind_default { SendsAt (switches port_table) [] 9 (1 ∷ 3 ∷ []) }
    ensures default_for_unlisted { SendsAt (switches unlisted_default) [] 8 (2 ∷ []) }
    ensures copied_after_return { SendsAt (stops_in Return) [] 7 (4 ∷ 1 ∷ 2 ∷ 5 ∷ []) }
    ensures copied_after_exit { SendsAt (stops_in Exit) [] 7 (4 ∷ 1 ∷ 2 ∷ []) }
    ensures child_fixes { RunOf with_child bounds (opening bounds)
        (gave 8 1 ∷ gave 32 2 ∷ gave 19 3 ∷ gave 32 4 ∷ gave 19 5 ∷ gave 48 6 ∷ gave 48 7 ∷ [])
        (Sent 2 zero_bytes) (2 ∷ 1 ∷ 3 ∷ 1 ∷ []) }
    ensures right_sum { SendsAt (verifies 0xba8c) [] 0 (1 ∷ 2 ∷ []) }
    ensures wrong_sum_stays { SendsAt (verifies 0xba8d) [] 1 (1 ∷ 2 ∷ 3 ∷ []) }
    ensures sum_stored { Passes updates (0 ∷ 1 ∷ 5 ∷ 5 ∷ 9 ∷ []) 0 (0 ∷ 1 ∷ 255 ∷ 254 ∷ 9 ∷ [])
        (1 ∷ 2 ∷ 3 ∷ []) }
    ensures stack_overflows { SendsAt labels [] 1 (1 ∷ 1 ∷ 1 ∷ 2 ∷ 4 ∷ []) }
    ensures bottom_found { Passes labels (4 ∷ 7 ∷ 0 ∷ []) 0 (4 ∷ 7 ∷ 0 ∷ []) (1 ∷ 1 ∷ 4 ∷ []) }
    ensures overruns_at_third { RunOf (program labels) two_steps (opening two_steps) [] Overrun [] }
    ensures reads_filled { RunUnder (program reads_twice) bounds (opening bounds) ones
        (Sent 0 zero_bytes) [] }
{}

/// Runs of a forwarder of IPv4 packets.
pub fn forwarder()
    ensures ethernet_short { Shows forwards (packet_at 0 (replicate 13 0)) []
        (Sent 0 (replicate 13 0)) (1 ∷ 9 ∷ 10 ∷ 11 ∷ []) }
    ensures ipv4_short { Shows forwards (packet_at 5 ethernet_bytes) [] (Sent 0 ethernet_bytes)
        (1 ∷ 2 ∷ 9 ∷ 10 ∷ 11 ∷ []) }
    ensures dropped_by_default { Shows forwards (packet_at 1 (ethernet_bytes ++ ipv4_bytes)) []
        Dropped (1 ∷ 2 ∷ 8 ∷ 3 ∷ []) }
    ensures forwarded { Shows forwards with_routes [] (Sent 3 forwarded_bytes)
        (1 ∷ 2 ∷ 8 ∷ 4 ∷ 5 ∷ 6 ∷ 7 ∷ 9 ∷ 10 ∷ 11 ∷ []) }
{}
