// The sample catalogue.
ghost use Rattle.std.specs.Prelude.{◌≡◌};
ghost use Rattle.qc_catalogue.specs.Sample.{sample};

/// The sample catalogue (docs/FORMATS.md, "Catalogue"): the text of `examples/orders.toml`.
pub fn sample() -> &'static str
    ensures { result.now ≡ sample }
{
    SAMPLE
}

const SAMPLE: &str = "[table.stock]\n\
bolt = 10\n\
nut = 3\n\
[table.sold]\n\
[table.lost]\n\
[table.finals]\n\
\n\
[resource.till]\n\
mode = \"early\"\n\
phases = 7\n\
low = 0\n\
high = 110\n\
rows = { drawer = 100 }\n\
\n\
[resource.post]\n\
mode = \"late\"\n\
phases = 7\n\
rows = { letters = 0 }\n\
\n\
[application.Orders]\n\
id = \"6f1c2f9e-0b7e-4c52-9d0a-1f2e3d4c5b01\"\n\
\n\
[application.Orders.exception.OrderLast]\n\
class = \"6f1c2f9e-0b7e-4c52-9d0a-1f2e3d4c5b02\"\n\
final = 'add finals[\"count\"] 1'\n\
[application.Orders.exception.OrderLast.method.Place]\n\
params = [\"in item text\", \"in qty whole\"]\n\
script = \"add lost[item] qty\"\n\
[application.Orders.exception.OrderLast.method.Notify]\n\
params = [\"in n whole\"]\n\
script = \"\"\n\
\n\
[application.Orders.component.Order]\n\
class = \"6f1c2f9e-0b7e-4c52-9d0a-1f2e3d4c5b03\"\n\
exception = \"OrderLast\"\n\
[application.Orders.component.Order.method.Place]\n\
params = [\"in item text\", \"in qty whole\"]\n\
script = '''\n\
need stock[item] >= qty\n\
sub stock[item] qty\n\
add sold[item] qty\n\
out till[\"drawer\"] += qty\n\
'''\n\
[application.Orders.component.Order.method.Notify]\n\
params = [\"in n whole\"]\n\
script = 'out post[\"letters\"] += n'\n\
\n\
[application.Orders.component.Plain]\n\
class = \"6f1c2f9e-0b7e-4c52-9d0a-1f2e3d4c5b04\"\n\
[application.Orders.component.Plain.method.Take]\n\
params = [\"in item text\", \"in qty whole\"]\n\
script = '''\n\
need stock[item] >= qty\n\
sub stock[item] qty\n\
'''\n\
[application.Orders.component.Plain.method.Undo]\n\
params = [\"in n whole\"]\n\
script = '''\n\
out till[\"drawer\"] += n\n\
retract till\n\
out till[\"drawer\"] += 1\n\
'''\n\
[application.Orders.component.Plain.method.Twice]\n\
params = []\n\
script = '''\n\
out post[\"letters\"] += 1\n\
retract post\n\
retract post\n\
'''\n\
[application.Orders.component.Plain.method.Doom]\n\
params = []\n\
script = \"abort\"\n";
