//! The answer to a call.
use crate::answer::Answer;
use crate::script::Call;
use lines::decode::{all_at_once, hex_prefix, streaming, to_data_line};
use lines::encode::u16_to_hex;
use lines::{Refusal, same_line};

/// Makes the call, and answers what it answers.
pub fn answer_to(call: &Call) -> Result<Answer<'_>, Refusal> {
    Ok(match call {
        Call::HexPrefix(b) => Answer::Prefix(hex_prefix(b.as_slice())?),
        Call::Streaming(b) => Answer::Stream(streaming(b.as_slice())?),
        Call::AllAtOnce(b) => Answer::Line(all_at_once(b.as_slice())?),
        Call::ToDataLine(b) => Answer::Line(to_data_line(b.as_slice())?),
        Call::DecodeBand(l) => Answer::Band(l.as_packet_line().decode_band()?),
        Call::CheckError(l) => Answer::Found(l.as_packet_line().check_error().map(|e| e.0)),
        Call::AsText(l) => Answer::Found(l.as_packet_line().as_text().map(|t| t.as_slice())),
        Call::AsError(l) => Answer::Found(l.as_packet_line().as_error().map(|e| e.0)),
        Call::AsBand(l, k) => l
            .as_packet_line()
            .as_band(*k)
            .map_or(Answer::Found(None), Answer::Band),
        Call::LineEq(a, b) => Answer::Same(same_line(&a.as_packet_line(), &b.as_packet_line())),
        Call::U16ToHex(n) => Answer::Digits(u16_to_hex(*n)),
    })
}
