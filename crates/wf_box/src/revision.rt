//! Revision of one execution: removing the candidates that its rule doesn't support. There are four
//! versions, by how large the candidates are, since small ones can be packed, and their cached
//! results are smaller.

ghost use Rattle.std.specs.Prelude.{◌≡◌, ◌<◌, ◌*◌, ◌⊎◌, true, length};
ghost use Rattle.std.specs.Bool.{OnTrue};
ghost use Rattle.wf_network.specs.Marks.{KeepsBitsBut, bit_of};
ghost use Rattle.wf_lane.specs.Table.{HasSupported};
ghost use Rattle.wf_network.specs.Problems.{rule_in, rule_number};
ghost use Rattle.wf_network.specs.Revising.{found_in, widened};
ghost use Rattle.wf_box.specs.Working.{IsRevising, IsTakingAt, Revises, TakesAt};

use crate::candidates::{Candidates, ValueSet};
use crate::packed::Packed;
use crate::taking::{Occurrence, remove_each};
use crate::workspace::Workspace;
use wf_base::lines::Lines;
use wf_base::set::Mask;
use wf_base::set::set64::Set64;
use wf_network::{
    Marks, Network, candidates_at, narrowed, pack_nibbles, pack_word, supported_narrow,
    supported_sets,
};

/// An execution and its rule, each by its number.
#[derive(Clone, Copy, Debug)]
struct ExecutionRule {
    number: u32,
    rule: u32,
}

/// The candidates that an execution's points had, and those of them that its rule supports.
#[derive(Clone, Copy, Debug)]
struct Judgement<T> {
    found: T,
    supported: T,
}

/// Revises execution `number`: removes the candidates of its points that it doesn't support, judged
/// by the candidates at the call, and marks the executions of each point that loses a candidate.
/// Returns the point that becomes empty, if there is one.
pub(crate) fn revise(
    number: u32,
    network: &Network,
    workspace: &mut Workspace,
    lines: &mut Lines,
) -> Option<u32>
    requires { IsRevising network.now number lines.old workspace.old }
    ensures { Revises network.now number
        lines.old workspace.old lines.new workspace.new result }
{
    let execution = network.execution(number as usize);
    let found = candidates_at(execution, &workspace.tracked.words);
    let rule = execution.simplex;
    let at = ExecutionRule { number, rule };
    let Some(parts) = narrowed(found) else {
        return revise_large(number, network, workspace, lines);
    };
    match pack_nibbles(parts) {
        Some(nibbles) => revise_packed(at, nibbles, network, workspace, lines),
        None => match pack_word(parts) {
            Some(word) => revise_packed(at, word, network, workspace, lines),
            None => revise_large(number, network, workspace, lines),
        },
    }
}

/// Revises an execution whose candidates are all below 4 or all below 16, and are packed in
/// `found`.
fn revise_packed<P: Packed>(
    at: ExecutionRule,
    found: P,
    network: &Network,
    workspace: &mut Workspace,
    lines: &mut Lines,
) -> Option<u32>
    requires revising { IsRevising network.now at.number lines.old workspace.old }
    requires rule { at.rule ≡ rule_number network.now at.number }
    requires found { widened (P.parts found)
        ≡ found_in network.now at.number workspace.old.tracked.words.items }
    ensures { Revises network.now at.number
        lines.old workspace.old lines.new workspace.new result }
{
    let supported = found.supported(at.rule, network, &mut workspace.memo);
    if supported == found {
        // most executions lose nothing, so this case comes first
        return None;
    }
    let judged = Judgement { found, supported };
    remove_packed(at.number, judged, network, workspace, lines)
}

/// Removes from the points of execution `number` the packed candidates that are not supported. Not
/// inlined into the loop over executions, so that the loop keeps the processor's registers.
#[inline(never)]
fn remove_packed<P: Packed>(
    number: u32,
    judged: Judgement<P>,
    network: &Network,
    workspace: &mut Workspace,
    lines: &mut Lines,
) -> Option<u32>
    requires revising { IsRevising network.now number lines.old workspace.old }
    requires found { widened (P.parts judged.found)
        ≡ found_in network.now number workspace.old.tracked.words.items }
    requires supported { HasSupported (widened (P.parts judged.supported))
        (rule_in network.now number).table (widened (P.parts judged.found)) }
    ensures { Revises network.now number
        lines.old workspace.old lines.new workspace.new result }
{
    let judged = Judgement {
        found: judged.found.unpacked(),
        supported: judged.supported.unpacked(),
    };
    remove_unsupported(number, judged, network, workspace, lines)
}

/// Revises an execution with some candidate of 16 or more. It reads the candidates again, so that
/// the loop over executions doesn't have to keep them in memory.
#[inline(never)]
fn revise_large(
    number: u32,
    network: &Network,
    workspace: &mut Workspace,
    lines: &mut Lines,
) -> Option<u32>
    requires { IsRevising network.now number lines.old workspace.old }
    ensures { Revises network.now number
        lines.old workspace.old lines.new workspace.new result }
{
    let execution = network.execution(number as usize);
    let rule = execution.simplex;
    let found = candidates_at(execution, &workspace.tracked.words);
    let at = ExecutionRule { number, rule };
    match narrowed(found) {
        Some(parts) => revise_parts(at, parts, network, workspace, lines),
        None => revise_sets(at, found, network, workspace, lines),
    }
}

/// Revises an execution whose candidates `found` are all below 64.
fn revise_parts(
    at: ExecutionRule,
    found: [Set64; 4],
    network: &Network,
    workspace: &mut Workspace,
    lines: &mut Lines,
) -> Option<u32>
    requires revising { IsRevising network.now at.number lines.old workspace.old }
    requires rule { at.rule ≡ rule_number network.now at.number }
    requires long { length found ≡ 4 }
    requires found { widened found
        ≡ found_in network.now at.number workspace.old.tracked.words.items }
    ensures { Revises network.now at.number
        lines.old workspace.old lines.new workspace.new result }
{
    let Some(supported) = supported_narrow(at.rule, found, network, &mut workspace.memo) else {
        return None;
    };
    let judged = Judgement { found, supported };
    remove_unsupported(at.number, judged, network, workspace, lines)
}

/// Revises an execution with some candidate of 64 or more. `found` are its candidates.
fn revise_sets(
    at: ExecutionRule,
    found: [Mask; 4],
    network: &Network,
    workspace: &mut Workspace,
    lines: &mut Lines,
) -> Option<u32>
    requires revising { IsRevising network.now at.number lines.old workspace.old }
    requires rule { at.rule ≡ rule_number network.now at.number }
    requires long { length found ≡ 4 }
    requires found { found ≡ found_in network.now at.number workspace.old.tracked.words.items }
    ensures { Revises network.now at.number
        lines.old workspace.old lines.new workspace.new result }
{
    let supported = supported_sets(at.rule, found, network, &mut workspace.memo);
    let judged = Judgement { found, supported };
    remove_unsupported(at.number, judged, network, workspace, lines)
}

/// Removes the candidates in `judged.found` that are not in `judged.supported` from the points of
/// execution `number`, place by place, and appends a line for each to `lines`. Returns the first
/// point that has no candidate left, which ends the removal, or `None`.
///
/// If the points then have exactly the supported candidates, it also removes the mark of the
/// execution: a tuple that supports one of them consists of supported candidates, so nothing else
/// can be lost there.
#[inline(always)] // a copy for each caller, which knows more of the candidates
fn remove_unsupported<C: Candidates>(
    number: u32,
    judged: Judgement<C>,
    network: &Network,
    workspace: &mut Workspace,
    lines: &mut Lines,
) -> Option<u32>
    requires revising { IsRevising network.now number lines.old workspace.old }
    requires found { C.at_places judged.found
        ≡ found_in network.now number workspace.old.tracked.words.items }
    requires long { length (C.at_places judged.found) ≡ 4 }
    requires supported { HasSupported (C.at_places judged.supported)
        (rule_in network.now number).table (C.at_places judged.found) }
    ensures { Revises network.now number
        lines.old workspace.old lines.new workspace.new result }
{
    let Judgement { found, supported } = judged;
    let execution = network.execution(number as usize);
    let rule = &network.rules[execution.simplex as usize];
    let processes = rule.places();
    'places: for place in 0..processes {
        let lost = found.lost(&supported, place);
        if lost.is_empty() {
            continue;
        }
        let at = Occurrence {
            execution: number,
            process: rule.process_at(place),
            point: execution.points[place as usize],
        };
        if remove_from_point(lost, at, network, workspace, lines) {
            return Some(at.point);
        }
    }
    let all_left = supported.are_left(execution, &workspace.tracked.words, processes);
    unmark(number, all_left, &mut workspace.marks);
    None
}

/// Removes the mark of execution `number` if `all_left` is true, that is, if its points have
/// exactly the supported candidates.
fn unmark(number: u32, all_left: bool, marks: &mut Marks)
    requires { number < 64 * length marks.old.words.items }
    ensures others { KeepsBitsBut marks.old.words.items marks.new.words.items number }
    ensures taken { OnTrue all_left (bit_of marks.new.words.items number ≡ 0) }
    ensures left { bit_of marks.new.words.items number ≡ 0
        → (all_left ≡ true) ⊎ (bit_of marks.old.words.items number ≡ 0) }
    ensures long { length marks.new.words.items ≡ length marks.old.words.items }
{
    if all_left {
        marks.take(number);
    }
}

/// Removes from the point of `place` those of the values `lost` that it still has, in ascending
/// order, with a line for each, and marks the executions of the point if it lost one. Returns
/// whether the point has no candidate left, which ends the removal.
#[inline(always)] // so that the place is not put together in memory
fn remove_from_point<V: ValueSet>(
    lost: V,
    place: Occurrence,
    network: &Network,
    workspace: &mut Workspace,
    lines: &mut Lines,
) -> bool
    requires { IsTakingAt network.now place lines.old workspace.old }
    ensures { TakesAt network.now (V.wide lost) place
        lines.old workspace.old lines.new workspace.new result }
{
    let before = workspace.tracked.words[place.point as usize];
    let emptied = remove_each(lost, place, &mut workspace.tracked.words, lines);
    if workspace.tracked.words[place.point as usize] == before {
        return emptied;
    }
    workspace.tracked.note(place.point, before);
    let users = network.executions_of(place.point);
    workspace.marks.mark_each(users);
    emptied
}
