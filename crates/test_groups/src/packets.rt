//! What members take.
use fault::Text;
use flight::life::Packet;
use model::entry::Request;
use model::message::Input;
use model::request::{Client, RequestNumber};
use std::alloc::{AllocError, Global};

// The client's first request.
const INSERT: &str =
    "INSERT INTO Dept (DNo, DStart, DEnd, DName) VALUES (3, DATE '2000-01-01', DATE '2020-01-01', 'Test'); \
    INSERT INTO Dept (DNo, DStart, DEnd, DName) VALUES (4, DATE '2000-01-01', DATE '2020-01-01', 'Test'); \
    INSERT INTO Emp (ENo, EStart, EEnd, EDept) VALUES (22217, DATE '2010-01-01', DATE '2011-11-12', 3);";

// Its second one.
const UPDATE: &str =
    "UPDATE Emp FOR PORTION OF EPeriod FROM DATE '2011-02-03' TO DATE '2011-09-10' SET EDept = 4 WHERE ENo = 22217;";

pub(crate) fn timeout() -> Packet {
    Packet::Local(Input::Timeout)
}

pub(crate) fn beat() -> Packet {
    Packet::Local(Input::Beat)
}

/// Appends an entry without a request.
pub(crate) fn close(reading: i64) -> Packet {
    Packet::Local(Input::Close { reading })
}

/// Asks for a floor above the stamps of all requests.
pub(crate) fn floor() -> Packet {
    Packet::Local(Input::Floor { reading: 500 })
}

/// The request of client 7 with this number, 1 or 2.
pub(crate) fn submit(alloc: Global, number: u64) -> Result<Packet, AllocError> {
    let (reading, text) = if number == 1 {
        (200, INSERT)
    } else {
        (400, UPDATE)
    };
    let (Some(client), Some(number)) = (Client::new(7), RequestNumber::new(number)) else {
        return Err(AllocError);
    };
    let request = Request {
        client,
        number,
        text: Text::new(alloc, text)?,
    };
    Ok(Packet::Local(Input::Submit { reading, request }))
}
