//! The request of a line's object, whose query borrows from it.
ghost use Rattle.std.specs.Prelude.{◌≡◌, true, Ok, MatchResult, IfOk, IfErr};
ghost use Rattle.osn_request.specs.Version.{newest_version};
ghost use Rattle.osn_request.specs.declared.request.RequestError.TheVariants.{NoMemory};
ghost use Rattle.osn_request.specs.LineRequest.{as_request, is_edit};
ghost use Rattle.osn_request.specs.Op.{op_of as asked_of};
ghost use Rattle.osn_request.specs.Request.{request_of, FailsLast};

use crate::request::edit::edit_of;
use crate::request::json_object::JsonObject;
use crate::request::line_query::LineQuery;
use crate::request::op::{Op, op_of};
use crate::request::query::line_query_of;
use crate::request::{Request, RequestError};
use crate::version::Version;
use osn_register::Edit;
use std::alloc::{AllocError, Global};

/// A `Request` whose query borrows its texts from the object of the line. An edit owns its texts,
/// since it joins the pending ones.
#[derive(Debug, Drop)]
pub enum LineRequest<'a> {
    /// `Request::Stage`.
    Stage(Edit),
    /// `Request::Publish`.
    Publish,
    /// `Request::Ask`.
    Ask { reader: u32, query: LineQuery<'a> },
}

impl<'a> LineRequest<'a> {
    /// Returns the request, with a query of its own.
    pub(crate) fn to_request(self, alloc: Global) -> Result<Request, AllocError>
        ensures { IfOk result (λ r. r ≡ as_request self.entry) }
    {
        match self {
            LineRequest::Stage(edit) => Ok(Request::Stage(edit)),
            LineRequest::Publish => Ok(Request::Publish),
            LineRequest::Ask { reader, query } => Ok(Request::Ask {
                reader,
                query: query.to_query(alloc)?,
            }),
        }
    }
}

/// Returns the request of a line's object by the newest version, with this many readers.
///
/// # Errors
/// Returns the first fault of the object, or `NoMemory`. Memory is taken only for the texts of an
/// edit, after no fault was found.
pub fn line_request_of<O: JsonObject>(
    alloc: Global,
    readers: u32,
    object: &O,
) -> Result<LineRequest<'_>, RequestError>
    ensures request { MatchResult result
        (λ r. request_of newest_version readers (O.value object.now) ≡ Ok (as_request r))
        (λ e. FailsLast e (request_of newest_version readers (O.value object.now))) }
    ensures memory { IfErr result
        (λ e. e ≡ NoMemory → is_edit (asked_of (O.value object.now)) ≡ true) }
{
    match op_of(object)? {
        Op::Edit(op) => Ok(LineRequest::Stage(edit_of(alloc, Version::newest(), op, object)?)),
        Op::Publish => Ok(LineRequest::Publish),
        Op::Query(op) => {
            let (reader, query) = line_query_of(readers, op, object)?;
            Ok(LineRequest::Ask { reader, query })
        }
    }
}
