//! The laws.

ghost use Rattle.protocol_laws.specs.Laws.{AreSpelled, RequestsTold, RecordsTold};

/// The canonical payload of the record of each request, of a notification, of an acknowledgement and of a suspension is that
/// which the definitions give.
pub fn spelled_as_defined()
    ensures { AreSpelled }
{}

/// The record of each request stands for that request, and no other record does.
pub fn told_as_spelled()
    ensures requests { RequestsTold }
    ensures records { RecordsTold }
{}
