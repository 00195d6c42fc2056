//! Laws of framing, as the contracts of functions that do nothing.
ghost use Rattle.ob_http.specs.Laws.{FramingIsOne, EndStays, RepliesAreOne, ReplyEndStays, NoneIsUnframed, NoReplyIsUnframed};
ghost use Rattle.ob_http.specs.RoundTrip.{AskedIsFramed, AnswerIsReplied};

/// The bytes of a client have one framing.
pub fn framing_is_one()
    ensures { FramingIsOne }
{}

/// A framing that is at its end stays, whatever bytes follow.
pub fn end_stays()
    ensures { EndStays }
{}

/// The bytes of a server have one framing.
pub fn replies_are_one()
    ensures { RepliesAreOne }
{}

/// A framing of replies that is at its end stays, whatever bytes follow.
pub fn reply_end_stays()
    ensures { ReplyEndStays }
{}

/// No bytes are without a framing: of any list of numbers, however long, it is refuted that it has none.
pub fn none_is_unframed()
    ensures { NoneIsUnframed }
{}

/// No bytes are without a framing as replies.
pub fn no_reply_is_unframed()
    ensures { NoReplyIsUnframed }
{}

/// A request that `write_request` writes is framed as itself.
pub fn asked_is_framed()
    ensures { AskedIsFramed }
{}

/// An answer that `write_answer` writes is framed as its status and its body.
pub fn answer_is_replied()
    ensures { AnswerIsReplied }
{}
