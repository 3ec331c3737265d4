//! Writes what is served.
ghost use Rattle.std.specs.Prelude.{◌≡◌, IfErr, IsTrue};
ghost use Rattle.values_plain.specs.Writing.{Writes};
ghost use Rattle.http_writing.specs.Name.{is_name as names_cache};
ghost use Rattle.node_serving.specs.Serving.{serve_text, stamp_for as stamp_told};

use http_messages::FetchFault;
use http_writing::{write_served, write_status};
use node_rules::{Serve, Served};
use std::io::Write;

/// Writes what is served, by the cache whose name stands in `via`. A copy is written with its age,
/// and with its stamp if a member sent the request. A bare status has `content-length: 0`.
///
/// `Io` is the only fault: the writer failed, and a front of the response is written. Allocates
/// nothing, and copies no body.
pub fn finish<W: Write>(writer: &mut W, serve: &Serve<()>, via: &[u8]) -> Result<(), FetchFault>
    requires { IsTrue (names_cache via.now) }
    ensures written { Writes (W.contents writer.old) (W.contents writer.new) result
        (serve_text serve.now.asker serve.now.served via.now) }
    ensures fault { IfErr result (λ fault. fault ≡ FetchFault.Io) }
{
    match &serve.served {
        Served::Copy { copy, age } => {
            let stamp = stamp_for(serve.asker, copy.stamp);
            write_served(writer, &copy.answer, *age, stamp, via)
        }
        Served::Status(status) => write_status(writer, *status, via),
    }
}

/// The stamp that is told: that of the copy to a member, none to a client.
fn stamp_for(asker: Option<u8>, stamp: u32) -> Option<u32>
    ensures { result ≡ stamp_told asker stamp }
{
    match asker {
        Some(_) => Some(stamp),
        None => None,
    }
}
