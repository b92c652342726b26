//! What each fault says of itself that no test of the program shows, a line for each.

use lis_message::{Kind, MessageFault, Reason, RecordFault};
use lis_message_texts::TextsFault;
use lis_tool::{Refused, ToolFault};
use lis_world::PlayFault;
use std::alloc::AllocError;
use std::mem::drop;
use uses::building::BuildFault;

#[test]
fn faults_say_what_is_wrong(rt: HostRuntime) {
    let unfinished = MessageFault {
        place: 6,
        reason: Reason::Unfinished,
    };
    let reported = format!(in rt.alloc();
        "{}\n{}\n{}\n{}\n{}\n",
        ToolFault::TooManyReads,
        PlayFault::OutOfMemory,
        BuildFault::Message(unfinished),
        BuildFault::Texts(TextsFault::TooMany),
        BuildFault::Memory(AllocError)
    )
    .expect(&rt, "memory");
    let want = "lislink: K5\n\
        memory ran out\n\
        no message: record 6: the end came before the message's closing record [G5]\n\
        no texts: the message has more than 65536 records\n\
        memory ran out\n";
    assert!(rt; reported.as_str() == want);
    drop(reported);
}

#[test]
fn a_refused_record_is_printed_with_its_code(rt: HostRuntime) {
    for (reason, want) in [
        (Reason::BadRecord(RecordFault::Empty), "refused 2 3 G1 C1"),
        (Reason::NotHeader, "refused 2 3 G2"),
        (Reason::NoParent(Kind::R), "refused 2 3 G3"),
        (Reason::SecondHeader, "refused 2 3 G4"),
        (Reason::Unfinished, "refused 2 3 G5"),
        (Reason::RecordTooLong, "refused 2 3 G6"),
    ] {
        let fault = MessageFault { place: 3, reason };
        let printed = format!(in rt.alloc(); "{}", Refused { message: 2, fault }).expect(
            &rt, "memory",
        );
        let is_wanted = printed.as_str() == want;
        drop(printed);
        assert!(rt; is_wanted);
    }
}
