// A machine: the first 555 bytes of a list.
ghost use Rattle.std.specs.Prelude.{◌≡◌, map, ◌+◌, ◌≤◌, length};
ghost use Rattle.config.specs.View.{view_timing, view_unit_spec, view_stage, view_shape};
ghost use Rattle.decoding.specs.Bytes.{flag_at, role_at, parts_at};
ghost use Rattle.decoding.specs.Machine.{timing_at, kind_at, shape_at};

use super::parts;
use capability::PipelineStageRole;
use config::{PipelineShape, PipelineTiming, StageSpec, UnitSpec};

#[tactic(auto, unfolding(crate::specs::Machine::timing_at))]
fn timing_at(list: &[u8]) -> PipelineTiming
    requires { 555 ≤ length list.now }
    ensures { view_timing result ≡ timing_at list.now }
{
    PipelineTiming {
        alu: parts::number_at(list, 0),
        mul: parts::number_at(list, 8),
        div: parts::number_at(list, 16),
        load: parts::number_at(list, 24),
        store: parts::number_at(list, 32),
        system: parts::number_at(list, 40),
        fp: parts::number_at(list, 48),
    }
}

fn ten_flags(list: &[u8], at: usize) -> [bool; 10]
    requires { at + 10 ≤ length list.now }
    ensures { result ≡ parts_at flag_at 1 10 list.now at }
{
    let mut flags = [false; 10];
    for i in 0..10 {
        flags[i] = parts::flag_at(list, at + i);
    }
    flags
}

fn stages_at(list: &[u8]) -> [StageSpec; 16]
    requires { 555 ≤ length list.now }
    ensures { map view_stage result ≡ parts_at role_at 1 16 list.now 90 }
{
    let mut stages = [StageSpec {
        role: PipelineStageRole::Other,
    }; 16];
    for i in 0..16 {
        stages[i].role = parts::role_at(list, 90 + i);
    }
    stages
}

#[tactic(auto, unfolding(config::specs::View::view_unit_spec, crate::specs::Machine::kind_at))]
fn kind_at(list: &[u8], at: usize) -> UnitSpec
    requires { at + 28 ≤ length list.now }
    ensures { view_unit_spec result ≡ kind_at list.now at }
{
    UnitSpec {
        name: parts::chars_at(list, at),
        classes: ten_flags(list, at + 9),
        latency_class: parts::class_at(list, at + 19),
        capacity: parts::number_at(list, at + 20),
    }
}

fn kinds_at(list: &[u8]) -> [UnitSpec; 16]
    requires { 555 ≤ length list.now }
    ensures { map view_unit_spec result ≡ parts_at kind_at 28 16 list.now 107 }
{
    let mut kinds = [UnitSpec::generic(); 16];
    for i in 0..16 {
        kinds[i] = kind_at(list, 107 + i * 28);
    }
    kinds
}

#[tactic(auto, unfolding(config::specs::View::view_shape, crate::specs::Machine::shape_at, crate::specs::Bytes::byte_at))]
pub fn shape_at(list: &[u8]) -> PipelineShape
    requires { 555 ≤ length list.now }
    ensures { view_shape result ≡ shape_at list.now }
{
    PipelineShape {
        stages: stages_at(list),
        stages_len: list[89] as usize,
        instruction_bytes: parts::maybe_number_at(list, 56),
        timing: timing_at(list),
        units: kinds_at(list),
        units_len: list[106] as usize,
        history: parts::number_at(list, 73) as usize,
    }
}
