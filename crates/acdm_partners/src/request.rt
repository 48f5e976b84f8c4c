//! What a line at the control address asks for.
ghost use Rattle.acdm_partners.specs.Requested.{AsksFor};

/// What a line at the control address asks for.
#[derive(Clone, Copy, Debug, PartialEq, Eq)]
pub enum ControlRequest {
    /// That the board closes.
    Close,
    /// The state of the board.
    Status,
    /// That a board which follows another one serves partners itself from then on.
    Promote,
    /// Nothing that there is: who sends it is let go.
    Nothing,
}

/// What a line asks for, without its line feed.
pub fn control_request(line: &[u8]) -> ControlRequest
    ensures { AsksFor line.now result }
{
    if line == b"close".as_slice() {
        return ControlRequest::Close;
    }
    if line == b"status".as_slice() {
        return ControlRequest::Status;
    }
    if line == b"promote".as_slice() {
        return ControlRequest::Promote;
    }
    ControlRequest::Nothing
}
