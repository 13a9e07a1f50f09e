ghost use Rattle.std.specs.Prelude.{◌≡◌, ◌==◌, ◌+◌, ◌&&◌, ℕ, IfOk};
ghost use Rattle.dl_types.specs.Places.{is_at_most, greater};
ghost use Rattle.dl_transcript.specs.declared.event.Event.TheVariants as event;
ghost use Rattle.dl_transcript.specs.Histories.{StreamHistory, new_stream};
ghost use Rattle.dl_shown.specs.Streams.{first_of, may_write, may_commit, may_move, is_end};
ghost use Rattle.dl_shown.specs.Streams.{may_recover, StandsFor, Judges, JudgesEnd};

use dl_types::dlsn::Dlsn;
use dl_types::memory::NoMemory;
use indexmap::{IndexMap, IndexSet};
use std::alloc::Global;

/// What was shown of a stream's segments, marks and points. An event is judged by it in the time of a look-up.
#[derive(Debug, Drop)]
pub struct StreamShown {
    /// How many of its segments are closed.
    closed: u64,
    /// The place below which every row is readable.
    mark: Dlsn,
    /// Its point.
    point: Dlsn,
    /// The places to which its point was moved.
    moved: IndexSet<Dlsn>,
    /// The segments that had a writer.
    writers: IndexSet<u64>,
    /// Where the recoveries of each segment ended.
    ends: IndexMap<u64, Dlsn>,
}

/// The one that stands behind the other.
fn greater(one: Dlsn, other: Dlsn) -> Dlsn
    ensures { result ≡ greater one other }
{
    if one.is_before(other) { other } else { one }
}

impl StreamShown {
    /// A stream of which nothing was shown.
    pub fn new(alloc: Global) -> StreamShown
        ensures { StandsFor result new_stream }
    {
        let first = Dlsn {
            segment: 1,
            entry: 0,
            slot: 0,
        };
        StreamShown {
            closed: 0,
            mark: first,
            point: first,
            moved: IndexSet::new(alloc),
            writers: IndexSet::new(alloc),
            ends: IndexMap::new(alloc),
        }
    }

    /// Whether a client may write this segment.
    fn may_write(&self, segment: u64) -> bool
        ensures { result ≡ may_write self.now segment }
    {
        segment >= 1 && segment - 1 <= self.closed && !self.writers.contains(&segment)
    }

    /// Whether a client may write this segment from now on, and that it does.
    pub fn write(&mut self, segment: u64) -> Result<bool, NoMemory>
        ensures { IfOk result (λ ok. (c : ℕ)
            → Judges self.old self.new (λ name. event.Writer c name segment) ok) }
    {
        if !self.may_write(segment) {
            return Ok(false);
        }
        let _new = self.writers.insert(segment)?;
        Ok(true)
    }

    /// Whether the rows below this place may be readable.
    fn may_commit(&self, place: Dlsn) -> bool
        ensures { result ≡ may_commit self.now place }
    {
        (place.segment == 0 || place.segment - 1 <= self.closed) && place.slot == 0
    }

    /// Whether the rows below this place may be readable, and that they are.
    pub fn commit(&mut self, place: Dlsn) -> bool
        ensures { Judges self.old self.new (λ name. event.Committed name place) result }
    {
        if !self.may_commit(place) {
            return false;
        }
        self.mark = greater(self.mark, place);
        true
    }

    /// Whether this segment may be closed next.
    fn may_close(&self, segment: u64) -> bool
        ensures { result ≡ (segment == self.now.closed + 1) }
    {
        segment >= 1 && segment - 1 == self.closed
    }

    /// Whether this segment may be closed next, and that it is.
    pub fn close(&mut self, segment: u64) -> bool
        ensures { Judges self.old self.new (λ name. event.Closed name segment) result }
    {
        if !self.may_close(segment) {
            return false;
        }
        self.closed = segment;
        true
    }

    /// Whether the place stands in a closed segment, or where the one under way begins.
    fn is_open_up_to(&self, place: Dlsn) -> bool
        ensures { result ≡ is_at_most place (first_of (self.now.closed + 1)) }
    {
        match self.closed.checked_add(1) {
            None => true,
            Some(segment) => !Dlsn {
                segment,
                entry: 0,
                slot: 0,
            }
            .is_before(place),
        }
    }

    /// Whether the point may move to this place.
    fn may_move(&self, place: Dlsn) -> bool
        ensures { result ≡ may_move self.now place }
    {
        self.point.is_before(place) && self.is_open_up_to(place)
    }

    /// Whether the point may move to this place, and that it does.
    pub fn move_point(&mut self, place: Dlsn) -> Result<bool, NoMemory>
        ensures { IfOk result (λ ok.
            Judges self.old self.new (λ name. event.Point name place) ok) }
    {
        if !self.may_move(place) {
            return Ok(false);
        }
        let _new = self.moved.insert(place)?;
        self.point = place;
        Ok(true)
    }

    /// Whether a client may have moved the point to this place.
    pub fn truncate(&self, place: Dlsn) -> bool
        ensures { (c : ℕ) → Judges self.now self.now (λ name. event.Truncated c name place) result }
    {
        self.moved.contains(&place)
    }

    /// Whether every other recovery of the place's segment ended there.
    fn is_end(&self, place: Dlsn) -> bool
        ensures { result ≡ is_end self.now place }
    {
        match self.ends.get(&place.segment) {
            Some(end) => *end == place,
            None => true,
        }
    }

    /// Whether a recovery may have ended at this place, where it stands above the rows of its segment or not.
    fn may_recover(&self, place: Dlsn, above: bool) -> bool
        ensures { result ≡ (may_recover self.now place && above) }
    {
        place.segment >= 1
            && place.segment <= self.closed
            && place.slot == 0
            && self.is_end(place)
            && above
    }

    /// Whether a client's recovery may have ended at this place, and that it did. It is told whether the place stands above the
    /// rows of its segment.
    pub fn recover(&mut self, place: Dlsn, above: bool) -> Result<bool, NoMemory>
        ensures { IfOk result (λ ok. (c : ℕ)
            → JudgesEnd self.old self.new place above (λ name. event.Recovered c name place) ok) }
    {
        if !self.may_recover(place, above) {
            return Ok(false);
        }
        let _old = self.ends.insert(place.segment, place)?;
        Ok(true)
    }

    /// Whether a row may stand at this place, as far as the rows before it don't decide it: in the segment under way, and not
    /// below the mark.
    pub fn may_hold(&self, place: Dlsn) -> bool
        ensures { (x : StreamHistory) → StandsFor self.now x
            → result ≡ (place.segment == x.closed + 1 && is_at_most x.mark place) }
    {
        self.may_close(place.segment) && !place.is_before(self.mark)
    }
}
