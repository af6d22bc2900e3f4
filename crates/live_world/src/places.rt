//! The places of connections.

use crate::connection::Connection;
use crate::deadline::Deadline;
use crate::life::Stage;
use of_types::Dpid;

/// Who is at the other end of the connection at this place.
fn stage_at(places: &[Option<Connection>], place: usize) -> Option<Stage> {
    match places.get(place)? {
        Some(connection) => Some(connection.life.stage),
        None => None,
    }
}

/// The place of the connection of this switch.
pub(crate) fn place_of(places: &[Option<Connection>], dpid: Dpid) -> Option<usize> {
    for place in 0..places.len() {
        if stage_at(places, place) == Some(Stage::Joined(dpid)) {
            return Some(place);
        }
    }
    None
}

/// A place without a connection: the lowest one, or one more where there are fewer than so many. Where memory runs out there is none.
pub(crate) fn vacant_place(places: &mut Vec<Option<Connection>>, most: usize) -> Option<usize> {
    let count = places.len();
    for place in 0..count {
        if let Some(None) = places.get(place) {
            return Some(place);
        }
    }
    if count < most && places.push(None).is_ok() {
        Some(count)
    } else {
        None
    }
}

/// How many connections joined, or how many did not.
pub(crate) fn count_of(places: &[Option<Connection>], has_joined: bool) -> usize {
    let mut count = 0usize;
    for place in 0..places.len() {
        let counts = match stage_at(places, place) {
            Some(Stage::Joined(_)) => has_joined,
            Some(Stage::Greeting | Stage::Named(_)) => !has_joined,
            None => false,
        };
        if counts {
            count = count.saturating_add(1);
        }
    }
    count
}

/// Whether the connection at this place has something to be told.
pub(crate) fn has_news(places: &[Option<Connection>], place: usize) -> bool {
    match places.get(place) {
        Some(Some(connection)) => connection.has_news(),
        _ => false,
    }
}

/// Whether some connection has something to be told.
pub(crate) fn any_news(places: &[Option<Connection>]) -> bool {
    for place in 0..places.len() {
        if has_news(places, place) {
            return true;
        }
    }
    false
}

/// Whether the connection at this place has ended.
pub(crate) fn has_ended(places: &[Option<Connection>], place: usize) -> bool {
    match places.get(place) {
        Some(Some(connection)) => connection.ended.is_some(),
        _ => true,
    }
}

/// Until when the answer to the last request on the connection at this place is awaited.
pub(crate) fn deadline_at(places: &[Option<Connection>], place: usize) -> Option<Deadline> {
    match places.get(place)? {
        Some(connection) => Some(connection.deadline),
        None => None,
    }
}
