// Two broken rules: the first in the walk is told, in whatever order the text has them.
pub const ORDER: &str = "\
resource = 1
table = 1
@small
=> BadField table
application = 1
resource = 1
=> BadField resource
a = 1
application = 1
=> BadField application
b = 1
a = 1
Z = 1
@small
=> BadField Z
[table]
b = 1
a = 1
@small
=> BadField table.a
[table]
b = 1
\"a b\" = 1
@small
=> BadField table
[table.a]
y = -1
x = -1
@small
=> BadField table.a.x
[table.a]
\"b c\" = -1
b = -1
@small
=> BadField table.a.b
[table.b]
x = -1
[table.a]
y = -1
@small
=> BadField table.a.y
[resource]
b = 1
\"a b\" = 1
@small
=> BadField resource
@in_till
phases = 0
mode = 1
rows = {}
@small
=> BadField resource.till.mode
@in_till
low = 1
phases = 0
mode = \"late\"
rows = {}
@small
=> BadField resource.till.phases
@in_till
rows = 1
low = 1
phases = 7
mode = \"late\"
@small
=> BadField resource.till.high
@in_till
high = -1
low = -1
phases = 7
mode = \"late\"
rows = {}
@small
=> BadField resource.till.low
@in_till
a = 1
rows = 1
phases = 7
mode = \"late\"
@small
=> BadField resource.till.rows
@in_till
b = 1
a = 1
rows = {}
phases = 7
mode = \"late\"
@small
=> BadField resource.till.a
@in_till
a = 1
rows = {}
phases = 3
mode = \"early\"
@small
=> BadField resource.till.a
[resource.till]
mode = \"early\"
phases = 3
rows = {}
[resource.safe]
@small
=> BadField resource.safe.mode
[resource.till]
mode = \"early\"
phases = 3
rows = {}
[application.A]
=> PhaseMissing till
[application.B]
[application.A]
=> BadField application.A.id
[application.B_]
[application.A]
=> BadField application
[application.A]
exception = 1
=> BadField application.A.id
@app
component = 1
exception = 1
=> BadField application.A.exception
@app
a = 1
component = 1
=> BadField application.A.component
@app
[application.A.component.C]
@in_class
=> BadField application.A.exception.X.class
@small
@in_class
method = 1
final = 1
=> BadField application.A.exception.X.class
@small
@in_class
method = 1
final = 1
class = \"6f1c2f9e-0b7e-4c52-9d0a-1f2e3d4c5b03\"
=> BadField application.A.exception.X.final
@small
@in_class
a = 1
method = 1
final = \"\"
class = \"6f1c2f9e-0b7e-4c52-9d0a-1f2e3d4c5b03\"
=> BadField application.A.exception.X.method
@app
[application.A.component.C]
exception = 1
=> BadField application.A.component.C.class
@app
@component
exception = \"X\"
method = 1
=> UnknownName application.A.component.C.exception
@app
@component
exception = \"X\"
@in_method
@class
=> BadField application.A.component.C.method.M.params
@app
@component
a = 1
exception = \"X\"
@method
@class
=> BadField application.A.exception.X.method.M
@app
@component
exception = \"X\"
[application.A.component.C.method.N]
params = []
script = \"\"
@method
@class
=> BadField application.A.exception.X.method.M
@app
@component
@in_method
script = 1
params = 1
=> BadField application.A.component.C.method.M.params
@app
@component
@in_method
params = [\"out a text\", \"in a text\"]
=> BadField application.A.component.C.method.M.params
@app
@component
@in_method
script = 1
params = [\"out a text\"]
=> NotQueueable application.A.component.C.method.M
@app
@component
@in_method
a = 1
script = 1
params = []
=> BadField application.A.component.C.method.M.script
";
