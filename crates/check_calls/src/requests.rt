// Requests in words.

use crate::called::write_called;
use check_rows::Line;
use secret_calls::{CallFault, Request};

/// The name of a fault.
pub fn fault_name(fault: CallFault) -> &'static str {
    match fault {
        CallFault::UnknownObject => "UnknownObject",
        CallFault::UnknownInterface => "UnknownInterface",
        CallFault::UnknownMethod => "UnknownMethod",
        CallFault::UnknownProperty => "UnknownProperty",
        CallFault::PropertyReadOnly => "PropertyReadOnly",
        CallFault::InvalidArgs => "InvalidArgs",
    }
}

/// Writes a request as its serial, whether a reply is wanted, its length, and the call or its fault.
pub fn write_request(line: &mut Line, request: &Request) {
    line.number(u64::from(request.serial.number));
    line.add(if request.wants_reply {
        " true "
    } else {
        " false "
    });
    line.number(u64::from(request.length));
    match &request.call {
        Ok(call) => {
            line.add(" Ok(");
            write_called(line, call);
        }
        Err(fault) => {
            line.add(" Err(");
            line.add(fault_name(*fault));
        }
    }
    line.add(")");
}
