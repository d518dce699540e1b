// Each rule of the text, of tables and of resources, broken alone.
pub const TABLES: &str = "\
=> BadField application
a =
=> NotToml
a = 1
a = 2
=> NotToml
[table.t]
a = 9223372036854775808
@small
=> NotToml
other = 1
@small
=> BadField other
\"a b\" = 1
@small
=> BadField ?
table = 1
@small
=> BadField table
[[table]]
@small
=> BadField table
[table]
@small
=> a catalogue
[table.\"a b\"]
@small
=> BadField table
[table.1a]
@small
=> BadField table
[table.a23456789012345678901234567890_2]
@small
=> a catalogue
[table.a234567890123456789012345678901_3]
@small
=> BadField table
[table]
stock = 1
@small
=> BadField table.stock
[table.stock]
bolt = -1
@small
=> BadField table.stock.bolt
[table.stock]
bolt = \"1\"
@small
=> BadField table.stock.bolt
[table.stock]
bolt = 1.0
@small
=> BadField table.stock.bolt
[table.stock]
bolt = 1_000_000_000_000_000
@small
=> a catalogue
[table.stock]
bolt = 1_000_000_000_000_001
@small
=> BadField table.stock.bolt
[table.stock]
\"\" = 1
@small
=> BadField table.stock.?
[table.stock]
\"a\\tb\" = 1
@small
=> BadField table.stock.?
[table.stock]
\"a b\" = 1
@small
=> a catalogue
[table.stock]
\"a b\" = -1
@small
=> BadField table.stock.?
resource = 1
@small
=> BadField resource
[resource.\"a b\"]
@small
=> BadField resource
[resource]
till = 1
@small
=> BadField resource.till
@till
@small
=> a catalogue
@in_till
phases = 7
rows = {}
@small
=> BadField resource.till.mode
@in_till
mode = \"often\"
phases = 7
rows = {}
@small
=> BadField resource.till.mode
@in_till
mode = 1
phases = 7
rows = {}
@small
=> BadField resource.till.mode
@in_till
mode = \"late\"
rows = {}
@small
=> BadField resource.till.phases
@in_till
mode = \"late\"
phases = 0
rows = {}
@small
=> BadField resource.till.phases
@in_till
mode = \"late\"
phases = 8
rows = {}
@small
=> BadField resource.till.phases
@in_till
mode = \"late\"
phases = \"7\"
rows = {}
@small
=> BadField resource.till.phases
@till
low = 0
@small
=> BadField resource.till.high
@in_till
low = 0
mode = \"late\"
phases = 7
rows = {}
@small
=> BadField resource.till.high
@in_till
low = -1
mode = \"late\"
phases = 7
rows = {}
@small
=> BadField resource.till.high
@in_till
high = 1
mode = \"late\"
phases = 7
rows = {}
@small
=> BadField resource.till.low
@in_till
high = -1
mode = \"late\"
phases = 7
rows = {}
@small
=> BadField resource.till.low
@in_till
low = -1
high = 1
mode = \"late\"
phases = 7
rows = {}
@small
=> BadField resource.till.low
@in_till
low = \"0\"
high = 1
mode = \"late\"
phases = 7
rows = {}
@small
=> BadField resource.till.low
@in_till
low = 0
high = -1
mode = \"late\"
phases = 7
rows = {}
@small
=> BadField resource.till.high
@in_till
low = 0
high = 1_000_000_000_000_000
mode = \"late\"
phases = 7
rows = {}
@small
=> a catalogue
@in_till
low = 0
high = 1_000_000_000_000_001
mode = \"late\"
phases = 7
rows = {}
@small
=> BadField resource.till.high
@in_till
low = 2
high = 1
mode = \"late\"
phases = 7
rows = {}
@small
=> BadField resource.till.high
@in_till
low = 1
high = 1
mode = \"late\"
phases = 7
rows = {}
@small
=> a catalogue
@in_till
mode = \"late\"
phases = 7
@small
=> BadField resource.till.rows
@in_till
mode = \"late\"
phases = 7
rows = 1
@small
=> BadField resource.till.rows
@in_till
mode = \"late\"
phases = 7
rows = { drawer = -1 }
@small
=> BadField resource.till.rows.drawer
@in_till
mode = \"late\"
phases = 7
rows = { \"\" = 1 }
@small
=> BadField resource.till.rows.?
@in_till
mode = \"late\"
phases = 7
rows = {}
more = 1
@small
=> BadField resource.till.more
@in_till
mode = \"late\"
phases = 7
rows = {}
\"a b\" = 1
@small
=> BadField resource.till.?
@in_till
mode = \"early\"
phases = 4
rows = {}
@small
=> a catalogue
@in_till
mode = \"early\"
phases = 3
rows = {}
@small
=> PhaseMissing till
@in_till
mode = \"late\"
phases = 2
rows = {}
@small
=> a catalogue
@in_till
mode = \"late\"
phases = 5
rows = {}
@small
=> PhaseMissing till
@in_till
mode = \"late\"
phases = 3
low = 0
high = 1
rows = {}
@small
=> a catalogue
@in_till
mode = \"late\"
phases = 6
low = 0
high = 1
rows = {}
@small
=> PhaseMissing till
application = 1
=> BadField application
[application]
=> BadField application
[application.A_1]
=> BadField application
[application]
A = 1
=> BadField application.A
";
