ghost use Rattle.std.specs.Prelude.{◌≡◌, length, MatchOption, IfSome};
ghost use Rattle.httparse.specs.Spans.{IsRequestWithin};
ghost use Rattle.handheld_http.specs.Parsed.{HasHead, IsNoHeadAtAll, Judges};

use crate::fields::{body_length, closes};
use crate::outcome::Extent;
use httparse::Status;
use httparse::spans::{EMPTY_HEADER_SPAN, HeaderSpan, RequestSpans, parse_request};

/// The maximum length of a head, in bytes.
pub const LONGEST_HEAD: usize = 8_192;

/// The maximum length of a body, in bytes.
pub const LONGEST_BODY: usize = 262_144;

/// The maximum number of fields in a head.
pub(crate) const MOST_FIELDS: usize = 64;

/// The offsets of a head's parts, if the bytes are one whole head of at most 64 fields.
pub(crate) fn whole_head(bytes: &[u8], spans: &mut [HeaderSpan]) -> Option<RequestSpans>
    requires { length spans.old ≡ 64 }
    ensures found { MatchOption result (IsNoHeadAtAll bytes.now) (λ parts. HasHead bytes.now spans.new parts) }
    ensures within { IfSome result (IsRequestWithin bytes.now spans.new) }
{
    match parse_request(bytes, spans) {
        Ok(Status::Complete(parts)) if parts.len == bytes.len() => Some(parts),
        _ => None,
    }
}

/// The extent of a head, or the status with which it is refused.
pub(crate) fn judge(head: &[u8]) -> Result<Extent, u16>
    ensures { Judges head.now result }
{
    let mut spans = [EMPTY_HEADER_SPAN; MOST_FIELDS];
    let Some(parts) = whole_head(head, &mut spans) else {
        return Err(400);
    };
    let fields = &spans[..parts.headers];
    let body = body_length(parts.method.of(head), head, fields)?;
    Ok(Extent {
        head: head.len(),
        body,
        closing: closes(parts.version, head, fields),
        method: parts.method,
        target: parts.path,
    })
}
