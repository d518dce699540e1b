// Lines of the worked drills, and their replies.

pub const SEND: &[u8] =
    b"{\"at\":0,\"do\":\"send\",\"app\":\"Orders\",\"component\":\"Order\",\"calls\":[[\"Place\",\"bolt\",4]]}\n";

pub const SEND_AT_5: &[u8] =
    b"{\"at\":5,\"do\":\"send\",\"app\":\"Orders\",\"component\":\"Order\",\"calls\":[[\"Place\",\"bolt\",4]]}\n";

pub const SEND_AT_3: &[u8] =
    b"{\"at\":3,\"do\":\"send\",\"app\":\"Orders\",\"component\":\"Order\",\"calls\":[[\"Place\",\"bolt\",4]]}\n";

// The last of repeated members counts.
pub const SEND_AT_0_AND_5: &[u8] =
    b"{\"at\":0,\"do\":\"send\",\"app\":\"Orders\",\"component\":\"Order\",\"calls\":[[\"Place\",\"bolt\",4]],\"at\":5}\n";

pub const SEND_MOST: &[u8] =
    b"{\"at\":0,\"do\":\"send\",\"app\":\"Orders\",\"component\":\"Order\",\"calls\":[[\"Place\",\"bolt\",1000000000000000]]}\n";

pub const SEND_TOO_MUCH: &[u8] =
    b"{\"at\":0,\"do\":\"send\",\"app\":\"Orders\",\"component\":\"Order\",\"calls\":[[\"Place\",\"bolt\",1000000000000001]]}\n";

pub const LIST: &[u8] = b"{\"at\":0,\"do\":\"queues\",\"app\":\"Orders\"}\n";

pub const STOCK: &[u8] = b"{\"at\":0,\"do\":\"table\",\"table\":\"stock\"}\n";

pub const SOLD: &[u8] = b"{\"at\":0,\"do\":\"table\",\"table\":\"sold\"}\n";

pub const NO_TABLE: &[u8] = b"{\"at\":0,\"do\":\"table\",\"table\":\"none\"}\n";

// A resource is no table.
pub const TILL_AS_TABLE: &[u8] = b"{\"at\":0,\"do\":\"table\",\"table\":\"till\"}\n";

pub const STOCK_AT_5: &[u8] = b"{\"at\":5,\"do\":\"table\",\"table\":\"stock\"}\n";

pub const NO_TABLE_AT_5: &[u8] = b"{\"at\":5,\"do\":\"table\",\"table\":\"none\"}\n";

pub const STOCK_SHOWN: &[u8] = b"table stock \"bolt\" 10, \"nut\" 3; total 13\n";

pub const SOLD_SHOWN: &[u8] = b"table sold; total 0\n";

pub const UNKNOWN_TABLE: &[u8] = b"refused 17 UnknownTable\n";

pub const TILL: &[u8] = b"{\"at\":0,\"do\":\"outside\",\"resource\":\"till\"}\n";

pub const POST: &[u8] = b"{\"at\":0,\"do\":\"outside\",\"resource\":\"post\"}\n";

pub const NO_RESOURCE: &[u8] = b"{\"at\":0,\"do\":\"outside\",\"resource\":\"none\"}\n";

// A table is no resource.
pub const STOCK_AS_RESOURCE: &[u8] = b"{\"at\":0,\"do\":\"outside\",\"resource\":\"stock\"}\n";

pub const TILL_AT_5: &[u8] = b"{\"at\":5,\"do\":\"outside\",\"resource\":\"till\"}\n";

pub const NO_RESOURCE_AT_5: &[u8] = b"{\"at\":5,\"do\":\"outside\",\"resource\":\"none\"}\n";

pub const TILL_SHOWN: &[u8] = b"outside till \"drawer\" 100; total 100\n";

pub const TILL_OF_104: &[u8] = b"outside till \"drawer\" 104; total 104\n";

pub const TILL_MISSING: &[u8] = b"outside till \"drawer\" missing; total 0\n";

pub const POST_SHOWN: &[u8] = b"outside post \"letters\" 0; total 0\n";

pub const LIST_UNENDED: &[u8] = b"{\"at\":0,\"do\":\"queues\",\"app\":\"Orders\"}";

pub const LIST_NOT_UTF8: &[u8] = b"{\"at\":0,\"do\":\"queues\",\"app\":\"Orders\xff\"}\n";

pub const EMPTY_ORDER: &[u8] = b"{}\n";

pub const LIST_OF_ONE: &[u8] = b"[1]\n";

pub const NONSENSE: &[u8] = b"nonsense\n";

pub const TAKE_BY_NO_PLAYER: &[u8] =
    b"{\"at\":0,\"do\":\"take\",\"player\":-1,\"app\":\"Orders\"}\n";

pub const TAKE: &[u8] = b"{\"at\":0,\"do\":\"take\",\"player\":1,\"app\":\"Orders\"}\n";

pub const MOVE: &[u8] =
    b"{\"at\":0,\"do\":\"move\",\"from\":\"Orders\",\"to\":\"Orders\",\"batch\":1}\n";

pub const LIST_AND_MORE: &[u8] = b"{\"at\":0,\"do\":\"queues\",\"app\":\"Orders\",\"queue\":0}\n";

pub const BLANK: &[u8] = b" \t\r\n";

pub const SENT_1: &[u8] = b"sent 1\n";

pub const SENT_2: &[u8] = b"sent 2\n";

pub const MOVED_NONE: &[u8] = b"moved 0\n";

pub const NOTHING_DUE: &[u8] = b"refused 20 NothingDue earliest none blocked 0\n";

pub const BAD_AMOUNT: &[u8] = b"refused 12 BadArguments 1 2\n";

pub const TOO_MANY_CALLS: &[u8] = b"refused 13 TooManyCalls\n";

pub const NO_LINE: &[u8] = b"refused 2 Malformed line\n";

pub const NO_MOMENT: &[u8] = b"refused 2 Malformed at\n";

pub const NO_PLAYER: &[u8] = b"refused 2 Malformed player\n";

pub const ONE_MORE_MEMBER: &[u8] = b"refused 2 Malformed unknown\n";

pub const LINE_TOO_LONG: &[u8] = b"refused 1 LineTooLong\n";

pub const LISTED_NONE: &[u8] =
    b"queues Orders; Orders_0; Orders_1; Orders_2; Orders_3; Orders_4; Orders_DeadQueue; consumed 0\n";

pub const LISTED_1: &[u8] =
    b"queues Orders 1/0/0; Orders_0; Orders_1; Orders_2; Orders_3; Orders_4; Orders_DeadQueue; consumed 0\n";

pub const LISTED_1_AT_5: &[u8] =
    b"queues Orders 1/0/5; Orders_0; Orders_1; Orders_2; Orders_3; Orders_4; Orders_DeadQueue; consumed 0\n";

pub const LISTED_2_AT_5: &[u8] =
    b"queues Orders 1/0/5, 2/0/5; Orders_0; Orders_1; Orders_2; Orders_3; Orders_4; Orders_DeadQueue; consumed 0\n";

// The group of the message and the end gate.
pub const GROUP: [u8; 65] =
    *b"\x01\x00\x00\x00\x3b\x00\x00\x00\x37\x02\x00\x00\x00\x00\x00\x00\x00\x01\x00\x00\x00\x00\x00\x00\x00\x00\x00\x24\x06Orders\x05Order\x01\x05Place\x02\x01\x04bolt\x02\x00\x00\x00\x00\x00\x00\x00\x04\x00";

pub const NOT_QUEUEABLE: &[u8] =
    b"bad catalogue: NotQueueable application.Orders.component.Order.method.Place\n";

pub const BAD_SCRIPT: &[u8] =
    b"bad catalogue: BadScript application.Orders.component.Order.method.Place.script 2\n";

pub const PHASE_MISSING: &[u8] = b"bad catalogue: PhaseMissing till\n";

pub const BAD_APPLICATION: &[u8] = b"bad catalogue: BadField application\n";

pub const TEXT_TOO_LONG: &[u8] = b"bad catalogue: TextTooLong\n";

pub const NOT_TOML: &[u8] = b"bad catalogue: NotToml\n";
