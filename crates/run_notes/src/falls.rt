//! Falls: places that are not greater than the one before them in their track.
ghost use Rattle.std.specs.Prelude.{◌≡◌, Some};
ghost use Rattle.std.specs.List.{flat_map};
ghost use Rattle.run_rules.specs.Notes.{lesser as lesser_of, least, falls, places_in};
ghost use Rattle.run_rules.specs.Notes.{least_fall as least_fall_of};
ghost use Rattle.run_notes.specs.Held.{track_of, tracks_in, fall_with as fall_by, lesser_fall};

use crate::Note;

/// The lesser of a place and another, if there is another.
fn lesser(place: u64, other: Option<u64>) -> u64
    ensures { result ≡ lesser_of place other }
{
    match other {
        Some(other) if other < place => other,
        _ => place,
    }
}

/// The least fall of a track that begins with `place`: `next` is the place after it, and `fall` the
/// least fall from there on.
fn fall_with(place: u64, next: Option<u64>, fall: Option<u64>) -> Option<u64>
    ensures { result ≡ fall_by place next fall }
{
    match next {
        Some(next) if next <= place => Some(lesser(next, fall)),
        _ => fall,
    }
}

/// The least place of a track that is not greater than the one before it, if there is one.
fn fall_in(track: &[Note<'_>]) -> Option<u64>
    ensures { result ≡ least (falls (places_in (track_of track.now))) }
{
    let mut next = None;
    let mut fall = None;
    for note in track {
        if let Some(place) = note.place() {
            fall = fall_with(place, next, fall);
            next = Some(place);
        }
    }
    fall
}

/// The lesser of two places, or the one that there is.
fn lesser_of_both(one: Option<u64>, other: Option<u64>) -> Option<u64>
    ensures { result ≡ lesser_fall one other }
{
    match one {
        Some(one) => Some(lesser(one, other)),
        None => other,
    }
}

/// The least place of all tracks that is not greater than the one before it in its own track, if
/// there is one.
pub(crate) fn least_fall(tracks: &[Vec<Note<'_>>]) -> Option<u64>
    ensures { result ≡ least_fall_of (tracks_in tracks.now) }
{
    let mut fall = None;
    for track in tracks {
        fall = lesser_of_both(fall, fall_in(track.as_slice()));
    }
    fall
}
