// An operation, and what shows one: stages, kinds and stations.
ghost use Rattle.std.specs.Prelude.{option_map};
ghost use Rattle.model.specs.Calls.{shown_slot, shown_stage, shown_unit, shown_station};
ghost use Rattle.occupants.specs.View.{view_slot};
ghost use Rattle.inspect.specs.View.{view_stage, view_kind, view_operand, view_station};
ghost use Rattle.answers.specs.Bytes.{slot_bytes, stage_bytes, kind_bytes, operand_bytes, station_bytes};
ghost use Rattle.answers.specs.Shown.{slot_shown, stage_shown, kind_shown, station_shown};

use super::parts::{Put, Shown, class_byte, put_part};
use inspect::kinds::PipelineUnitView;
use inspect::stages::PipelineStageView;
use inspect::stations::{PipelineOperandView, PipelineStationView};
use occupants::PipelineSlotView;
use traces::texts;

impl Put for PipelineSlotView {
    const SIZE: usize = 16;

    ghost SIZE = { 16 };

    ghost bytes = { λ v. slot_bytes (view_slot v) };

    fn put(self, out: &mut [u8], at: usize) -> usize {
        let a = self.address.put(out, at);
        let b = texts::put(
            out,
            a,
            &[
                class_byte(self.class),
                u8::from(self.bubble),
                u8::from(self.speculative),
                u8::from(self.predicted_taken),
            ],
        );
        let c = put_part(out, b, self.hazard);
        texts::put(out, c, &[u8::from(self.atomic), self.cycles_remaining])
    }
}

impl Shown for PipelineSlotView {
    ghost shown = { λ o. shown_slot (option_map view_slot o) };

    ghost laws = { slot_shown };
}

impl Put for PipelineStageView {
    const SIZE: usize = 18;

    ghost SIZE = { 18 };

    ghost bytes = { λ v. stage_bytes (view_stage v) };

    fn put(self, out: &mut [u8], at: usize) -> usize {
        let a = u8::from(self.role).put(out, at);
        put_part(out, a, self.slot)
    }
}

impl Shown for PipelineStageView {
    ghost shown = { λ o. shown_stage (option_map view_stage o) };

    ghost laws = { stage_shown };
}

impl Put for PipelineUnitView {
    const SIZE: usize = 35;

    ghost SIZE = { 35 };

    ghost bytes = { λ v. kind_bytes (view_kind v) };

    fn put(self, out: &mut [u8], at: usize) -> usize {
        let a = (self.capacity as u64).put(out, at);
        let b = (self.active as u64).put(out, a);
        let c = put_part(out, b, self.first);
        texts::put(out, c, &[class_byte(self.latency_class), self.latency])
    }
}

impl Shown for PipelineUnitView {
    ghost shown = { λ o. shown_unit (option_map view_kind o) };

    ghost laws = { kind_shown };
}

impl Put for PipelineOperandView {
    const SIZE: usize = 3;

    ghost SIZE = { 3 };

    ghost bytes = { λ v. operand_bytes (view_operand v) };

    fn put(self, out: &mut [u8], at: usize) -> usize {
        let a = self.register.put(out, at);
        put_part(out, a, self.producer)
    }
}

impl Put for PipelineStationView {
    const SIZE: usize = 29;

    ghost SIZE = { 29 };

    ghost bytes = { λ v. station_bytes (view_station v) };

    fn put(self, out: &mut [u8], at: usize) -> usize {
        let a = self.unit.put(out, at);
        let b = put_part(out, a, self.tag);
        let c = put_part(out, b, self.slot);
        let d = u8::from(self.phase).put(out, c);
        let e = put_part(out, d, self.operand_0);
        put_part(out, e, self.operand_1)
    }
}

impl Shown for PipelineStationView {
    ghost shown = { λ o. shown_station (option_map view_station o) };

    ghost laws = { station_shown };
}
