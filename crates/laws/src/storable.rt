//! The laws.

ghost use Rattle.laws.specs.Storable.{RequestsAreStorable, LogsStayStored};

use json_obj::values_are_orderly;
use route_req::item_objects_are_plain;

/// What a request has a route to write, alone or in a transaction, may be stored.
pub fn requests_are_storable()
    ensures { RequestsAreStorable }
{
    values_are_orderly();
    item_objects_are_plain();
}

/// Where nobody else holds a log, its objects are such as may be stored after a session's requests if they were before.
pub fn logs_stay_stored()
    ensures { LogsStayStored }
{
    requests_are_storable();
}
