//! Laws of the messages and of the answers.

ghost use Rattle.ssh_service.specs.Laws.{AcceptedOnce, FirstAccepted, OnePayload, SpelledRead};

/// Two payloads that are read as one message are equal.
pub fn one_payload()
    ensures { OnePayload }
{}

/// The spelling of a message is read as that message.
pub fn spelled_read()
    ensures { SpelledRead }
{}

/// No service is accepted twice: behind a payload that is answered by a grant no payload is answered by the same one.
pub fn accepted_once()
    ensures { AcceptedOnce }
{}

/// A request of a service that is offered is accepted where no earlier payload asked for it.
pub fn first_accepted()
    ensures { FirstAccepted }
{}
