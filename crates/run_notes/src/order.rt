//! Which note comes next: an opening or a closing at once, else the entry with the least place. If
//! several tracks have it, the one of the first track.
ghost use Rattle.std.specs.Prelude.{◌≡◌, ◌≤◌, ◌<◌, ◌∷◌, [], length, nat_le, Some, None};
ghost use Rattle.std.specs.Prelude.{MatchOption, IfSome, IfOk, if◌then◌else◌};
ghost use Rattle.run_rules.specs.Notes.{rank_of as rank_of_track, ranks_of, least, count_of};
ghost use Rattle.run_rules.specs.Notes.{tracks_of};
ghost use Rattle.run_rules.specs.Verdict.{double_by, order_of};
ghost use Rattle.run_notes.specs.Held.{track_of, tracks_in, place_at as place_of_rank, order_in};
ghost use Rattle.run_notes.specs.Held.{ordered_of};

use crate::Note;
use crate::falls::least_fall;
use crate::tracks::tracks;
use node_book::Record;
use purge_master::MasterEntry;
use std::alloc::{AllocError, Global};

/// A note that was taken.
#[derive(Clone, Copy)]
pub struct OrderedNote<'a> {
    /// The note.
    pub note: Note<'a>,
    /// The doubled place that is found at this note, if any: one that is not greater than the one
    /// before it in its track, and not later than this note's; or this note's own, if two tracks
    /// have it.
    pub double: Option<u64>,
}

/// The notes of a run that are not taken yet.
///
/// A contract sees them as a list in their order, by `order_in`.
#[derive(Drop)]
pub struct Notes<'a> {
    tracks: Vec<Vec<Note<'a>>>,
    fall: Option<u64>,
}

/// The rank of the next note of a track, if there is one.
fn rank_of(track: &[Note<'_>]) -> Option<u128>
    ensures { result ≡ rank_of_track (track_of track.now) }
{
    match track.last() {
        Some(note) => Some(note.rank()),
        None => None,
    }
}

/// The least rank of all tracks, if there is one.
fn least_rank(tracks: &[Vec<Note<'_>>]) -> Option<u128>
    ensures { result ≡ least (ranks_of (tracks_in tracks.now)) }
{
    match tracks {
        [] => None,
        [first, rest @ ..] => match (rank_of(first.as_slice()), least_rank(rest)) {
            (Some(rank), Some(later)) if later < rank => Some(later),
            (Some(rank), _) => Some(rank),
            (None, later) => later,
        },
    }
}

/// The index of the first track that has this rank, if any.
fn place_at(tracks: &[Vec<Note<'_>>], rank: u128) -> Option<usize>
    ensures place { result ≡ place_of_rank rank (tracks_in tracks.now) }
    ensures below { IfSome result (λ place. place < length tracks.now) }
{
    match tracks {
        [] => None,
        [first, rest @ ..] => {
            if rank_of(first.as_slice()) == Some(rank) {
                return Some(0);
            }
            match place_at(rest, rank) {
                Some(place) => Some(place + 1),
                None => None,
            }
        }
    }
}

/// How many tracks have this rank.
fn count_at(tracks: &[Vec<Note<'_>>], rank: u128) -> usize
    ensures count { result ≡ count_of rank (ranks_of (tracks_in tracks.now)) }
    ensures few { result ≤ length tracks.now }
{
    match tracks {
        [] => 0,
        [first, rest @ ..] => {
            let others = count_at(rest, rank);
            if rank_of(first.as_slice()) == Some(rank) {
                others + 1
            } else {
                others
            }
        }
    }
}

/// The doubled place that is found at a note with this place: the least fall if it is not later, or
/// its own if two tracks have it (`is_shared`).
fn double_at(fall: Option<u64>, is_shared: bool, place: Option<u64>) -> Option<u64>
    ensures { result ≡ double_by fall is_shared place }
{
    match (place, fall) {
        (None, _) => None,
        (Some(place), Some(fall)) if fall <= place => Some(fall),
        (Some(place), _) if is_shared => Some(place),
        (Some(_), _) => None,
    }
}

impl<'a> Notes<'a> {
    /// All notes of these records and entries. Records of one node must stand in the order in which
    /// they were kept.
    ///
    /// Fault: an allocation failed.
    pub fn new(
        alloc: Global,
        records: &'a [Record],
        entries: &'a [MasterEntry],
    ) -> Result<Notes<'a>, AllocError>
        ensures { IfOk result (λ notes.
            order_in notes ≡ order_of (tracks_of records.now entries.now)) }
    {
        let tracks = tracks(alloc, records, entries)?;
        let fall = least_fall(tracks.as_slice());
        Ok(Notes { tracks, fall })
    }

    /// Takes the next note; `None` if all are taken. Allocates nothing.
    pub fn take(&mut self) -> Option<OrderedNote<'a>>
        ensures { MatchOption result (order_in self.old ≡ []) (λ ordered.
            order_in self.old ≡ ordered_of ordered ∷ order_in self.new) }
    {
        let rank = least_rank(self.tracks.as_slice())?;
        let is_shared = count_at(self.tracks.as_slice(), rank) >= 2;
        let at = place_at(self.tracks.as_slice(), rank)?;
        let note = self.tracks[at].pop()?;
        let double = double_at(self.fall, is_shared, note.place());
        Some(OrderedNote { note, double })
    }
}
