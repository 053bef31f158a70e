// The rows of past cycles (pipeline/timeline.rs). What moves each cycle is apart from what stays as it was opened, and the cells stand in lent
// memory: row id r in slot r mod history, 200 bytes a slot, its cell c (from 0 at opening) at byte c mod 200.
#![tactic(auto)]

use capability::PipelineInstructionClass;
use op::Text;

// The lent cell memory, and the view of a cell.
pub mod cells;

ghost use Rattle.std.specs.Prelude.{◌≡◌, ◌+◌, ◌-◌, ◌*◌, ◌%◌, ◌<◌, ◌≤◌, max, length, set, replicate, slice_get, IfSome};
ghost use Rattle.laws.specs.Means.{Means};
ghost use Rattle.laws.specs.Numbers.{max64};
ghost use Rattle.model.specs.Timeline.{write_all, push_writes, open_writes};
ghost use Rattle.timeline.specs.declared.RowTexts.{RowTexts};
ghost use Rattle.timeline.specs.View.{
  first_track,
  no_text,
  view_rows,
  WindowOk,
  TrackOk,
  TracksOk,
  RowTextOk,
  RowTextsOk,
  all_tracks,
  all_texts,
  the_window,
  no_rows,
  opened,
  SlotOf,
  slot_held,
  Grown,
  Pushed,
  ShowsRow,
  ShowsText,
};

// What a wait of a cycle is for (`Trace`). WaitsForOlder is WaitsFor without a producer.
#[derive(Clone, Copy)]
pub enum WaitForm {
    Overwrites,
    MemoryOrder,
    Drains,
    WaitsFor,
    WaitsForOlder,
    BehindBranch,
    BehindSystem,
    StillWrites,
    AllBusy,
    RedirectTo,
}

// What moves each cycle: the first cycle shown, the cells held, the byte of the oldest.
#[derive(Clone, Copy)]
pub struct Track {
    pub first_cycle: u64,
    pub cells: u8,
    pub oldest: u8,
}

#[derive(Clone, Copy)]
pub struct Tracks {
    pub items: [Track; 256],
}

// What stays as it was opened.
#[derive(Clone, Copy)]
pub struct RowText {
    pub address: u64,
    pub class: PipelineInstructionClass,
    pub atomic: bool,
    pub disassembly: Text,
}

#[derive(Clone, Copy)]
pub struct RowTexts {
    pub items: [RowText; 256],
}

// Which rows are held: those of ids next - held to next - 1, at most `history` of them.
#[derive(Clone, Copy)]
pub struct Window {
    pub next: u64,
    pub held: usize,
    pub history: usize,
}

// PipelineTimelineRow, with the row's id and the byte of its oldest cell.
#[derive(Clone, Copy)]
pub struct PipelineTimelineRow {
    pub id: u64,
    pub address: u64,
    pub class: PipelineInstructionClass,
    pub first_cycle: u64,
    pub cells: u8,
    pub atomic: bool,
    pub oldest: u8,
}

impl Window {
    // No rows; a history of 0 reads as 1.
    pub fn new(history: usize) -> Window
        requires { history ≤ 256 }
        ensures { Means the_window WindowOk result (no_rows (max 1 history)) }
    {
        Window {
            next: 0,
            held: 0,
            history: history.max(1),
        }
    }

    // The step of opening the row of id `next`.
    pub fn open(&mut self)
        requires window_ok { WindowOk self.old }
        requires next_lt_max64 { self.old.next < max64 }
        ensures { Means the_window WindowOk self.new (opened self.old) }
    {
        self.next += 1;
        self.held = (self.held + 1).min(self.history);
    }

    // The slot of a row id.
    pub fn slot(&self, id: u64) -> usize
        requires { WindowOk self.now }
        ensures { SlotOf self.now id result }
    {
        (id % (self.history as u64)) as usize
    }

    // The id of the row at an index, oldest first.
    pub fn id_at(&self, index: usize) -> u64
        requires window_ok { WindowOk self.now }
        requires index_lt_held { index < self.now.held }
        ensures { result ≡ self.now.next - self.now.held + index }
    {
        self.next - self.held as u64 + index as u64
    }

    // The slot of a row id, where the row is held.
    #[tactic(auto, unfolding(crate::specs::View::slot_held))]
    pub fn find(&self, id: u64) -> Option<usize>
        requires { WindowOk self.now }
        ensures is { result ≡ slot_held self.now id }
        ensures below { IfSome result (λ s. s < 256) }
    {
        let first = self.next - self.held as u64;
        if first <= id && id < self.next {
            Some(self.slot(id))
        } else {
            None
        }
    }
}

impl Track {
    // A row just opened, with its first cell at byte 0.
    pub fn first(cycle: u64) -> Track
        ensures { Means (λ (t : Track). t) TrackOk result (first_track cycle) }
    {
        Track {
            first_cycle: cycle,
            cells: 1,
            oldest: 0,
        }
    }

    // The byte of the slot that a cell stands at, counted from the oldest.
    pub fn place(&self, index: usize) -> usize
        requires track_ok { TrackOk self.now }
        requires index_bound { index ≤ 200 }
        ensures { result ≡ (self.now.oldest + index) % 200 }
    {
        (self.oldest as usize + index) % 200
    }

    // One cell more; beyond 200 the oldest goes and the first cycle rises, stopping at 2^64 - 1.
    pub fn grow(&mut self)
        requires { TrackOk self.old }
        ensures { Grown self.old self.new }
    {
        if self.cells < 200 {
            self.cells += 1;
        } else {
            self.first_cycle = capability::saturating_add(self.first_cycle, 1);
            self.oldest = (self.oldest + 1) % 200;
        }
    }

    // A cell's byte to the row in slot s.
    pub fn push(&mut self, s: usize, byte: u8, cells: &mut [u8])
        requires track_ok { TrackOk self.old }
        requires s_in_bounds { s * 200 + 200 ≤ length cells.old }
        ensures track { Grown self.old self.new }
        ensures memory { cells.new ≡ set cells.old (s * 200 + (self.old.oldest + self.old.cells) % 200) byte }
    {
        cells[s * 200 + self.place(self.cells as usize)] = byte;
        self.grow();
    }
}

impl Tracks {
    pub fn new() -> Tracks
        ensures { Means all_tracks TracksOk result (replicate 256 (first_track 0)) }
    {
        Tracks {
            items: [Track::first(0); 256],
        }
    }

    // Timeline::open, what moves: the row of id `next`, its 200 bytes set to 255 and then its first cell, IF.
    pub fn open(&mut self, window: Window, cycle: u64, cells: &mut [u8])
        requires window_ok { WindowOk window }
        requires tracks_ok { TracksOk self.old }
        requires history_in_bounds { window.history * 200 ≤ length cells.old }
        ensures tracks { Means all_tracks TracksOk self.new (set self.old.items (window.next % window.history) (first_track cycle)) }
        ensures memory { cells.new ≡ write_all (open_writes window.history window.next) cells.old }
    {
        let s = window.slot(window.next);
        let at = s * 200;
        cells[at..at + 200].fill(255);
        cells[at] = 0;
        self.items[s] = Track::first(cycle);
    }

    // Timeline::push: a cell's byte to the row of an id; nothing where it is no longer held.
    pub fn push(&mut self, window: Window, id: u64, byte: u8, cells: &mut [u8])
        requires window_ok { WindowOk window }
        requires tracks_ok { TracksOk self.old }
        requires history_in_bounds { window.history * 200 ≤ length cells.old }
        ensures tracks { Pushed window id self.old self.new }
        ensures memory { (xs : RowTexts) → cells.new ≡ write_all (push_writes window.history id byte (view_rows window self.old xs)) cells.old }
    {
        if let Some(s) = window.find(id) {
            let mut t = self.items[s];
            t.push(s, byte, cells);
            self.items[s] = t;
        }
    }
}

impl RowTexts {
    pub fn new() -> RowTexts
        ensures { Means all_texts RowTextsOk result (replicate 256 no_text) }
    {
        let x = RowText {
            address: 0,
            class: PipelineInstructionClass::Unknown,
            atomic: false,
            disassembly: Text {
                bytes: [0; 64],
                len: 0,
            },
        };
        RowTexts { items: [x; 256] }
    }

    // Timeline::open, what stays.
    pub fn open(&mut self, window: Window, row: RowText)
        requires window_ok { WindowOk window }
        requires row_texts_ok { RowTextsOk self.old }
        requires row_text_ok { RowTextOk row }
        ensures { Means all_texts RowTextsOk self.new (set self.old.items (window.next % window.history) row) }
    {
        self.items[window.slot(window.next)] = row;
    }

    // The text of the row at an index, oldest first.
    pub fn disassembly(&self, window: Window, index: usize) -> Option<Text>
        requires window_ok { WindowOk window }
        requires row_texts_ok { RowTextsOk self.now }
        ensures { ShowsText window self.now index result }
    {
        if window.held <= index {
            return None;
        }
        let s = window.slot(window.id_at(index));
        Some(self.items[s].disassembly)
    }
}

// Timeline::row: the numbers of the row at an index, oldest first.
pub fn row(
    window: Window,
    tracks: &Tracks,
    texts: &RowTexts,
    index: usize,
) -> Option<PipelineTimelineRow>
    requires window_ok { WindowOk window }
    requires tracks_ok { TracksOk tracks.now }
    requires row_texts_ok { RowTextsOk texts.now }
    ensures { ShowsRow (slice_get (view_rows window tracks.now texts.now) index) result }
{
    if window.held <= index {
        return None;
    }
    let id = window.id_at(index);
    let s = window.slot(id);
    let t = &tracks.items[s];
    let x = &texts.items[s];
    Some(PipelineTimelineRow {
        id,
        address: x.address,
        class: x.class,
        first_cycle: t.first_cycle,
        cells: t.cells,
        atomic: x.atomic,
        oldest: t.oldest,
    })
}
