// Each rule of applications, classes, components and methods, broken alone.
pub const APPLICATIONS: &str = "\
@small
=> a catalogue
[application.A]
@component
@method
=> BadField application.A.id
[application.A]
id = 1
@component
@method
=> BadField application.A.id
[application.A]
id = \"6f1c\"
@component
@method
=> BadField application.A.id
@app
exception = 1
@component
@method
=> BadField application.A.exception
@app
[application.A.exception]
@component
@method
=> a catalogue
@small
[application.A.exception.\"a b\"]
=> BadField application.A.exception
@app
exception.X = 1
@component
@method
=> BadField application.A.exception.X
@small
@class
=> a catalogue
@small
@in_class
final = \"\"
method = {}
=> BadField application.A.exception.X.class
@small
@in_class
class = \"x\"
final = \"\"
method = {}
=> BadField application.A.exception.X.class
@small
@in_class
class = \"6f1c2f9e-0b7e-4c52-9d0a-1f2e3d4c5b03\"
method = {}
=> BadField application.A.exception.X.final
@small
@in_class
class = \"6f1c2f9e-0b7e-4c52-9d0a-1f2e3d4c5b03\"
final = 1
method = {}
=> BadField application.A.exception.X.final
@small
@in_class
@class_fields
=> BadField application.A.exception.X.method
@small
@in_class
@class_fields
method = 1
=> BadField application.A.exception.X.method
@small
@in_class
@class_fields
method.\"a b\" = {}
=> BadField application.A.exception.X.method
@small
@in_class
@class_fields
method.M = 1
=> BadField application.A.exception.X.method.M
@small
@in_class
@class_fields
method.M = { script = \"\" }
=> BadField application.A.exception.X.method.M.params
@small
@in_class
@class_fields
method.M = { params = [\"out a text\"], script = \"\" }
=> NotQueueable application.A.exception.X.method.M
@small
@class
more = 1
=> BadField application.A.exception.X.more
@app
=> BadField application.A.component
@app
component = 1
=> BadField application.A.component
@app
[application.A.component]
=> BadField application.A.component
@app
[application.A.component.\"?\"]
=> BadField application.A.component
@app
component.C = 1
=> BadField application.A.component.C
@app
more = 1
@component
@method
=> BadField application.A.more
@app
[application.A.component.C]
@method
=> BadField application.A.component.C.class
@app
[application.A.component.C]
class = \"\"
@method
=> BadField application.A.component.C.class
@app
@component
exception = 1
@method
=> BadField application.A.component.C.exception
@app
@component
exception = \"X\"
@method
=> UnknownName application.A.component.C.exception
@app
@component
exception = \"a b\"
@method
@class
=> UnknownName application.A.component.C.exception
@app
@component
=> BadField application.A.component.C.method
@app
@component
method = {}
=> BadField application.A.component.C.method
@app
@component
method = 1
=> BadField application.A.component.C.method
@app
@component
method.\"a b\" = {}
=> BadField application.A.component.C.method
@app
@component
method.M = 1
=> BadField application.A.component.C.method.M
@app
@component
more = 1
@method
=> BadField application.A.component.C.more
@app
@component
exception = \"X\"
@method
@class
=> BadField application.A.exception.X.method.M
@app
@component
exception = \"X\"
@method
@in_class
@class_fields
method.M = { params = [\"in a text\"], script = \"\" }
=> BadField application.A.exception.X.method.M
@app
@component
exception = \"X\"
@method
@in_class
@class_fields
method.M = { params = [], script = \"\" }
method.N = { params = [], script = \"\" }
=> a catalogue
@app
@component
exception = \"X\"
@in_method
params = [\"in a text\"]
script = \"\"
@in_class
@class_fields
method.M = { params = [\"in b text\"], script = \"\" }
=> a catalogue
@app
@component
exception = \"X\"
@in_method
params = [\"in a text\"]
script = \"\"
@in_class
@class_fields
method.M = { params = [\"in a whole\"], script = \"\" }
=> BadField application.A.exception.X.method.M
@app
@component
exception = \"X\"
@in_method
params = [\"in a text\", \"in b whole\"]
script = \"\"
@in_class
@class_fields
method.M = { params = [\"in b whole\", \"in a text\"], script = \"\" }
=> BadField application.A.exception.X.method.M
@app
@component
@in_method
script = \"\"
=> BadField application.A.component.C.method.M.params
@app
@component
@in_method
params = \"in a text\"
script = \"\"
=> BadField application.A.component.C.method.M.params
@app
@component
@in_method
params = [1]
script = \"\"
=> BadField application.A.component.C.method.M.params
@app
@component
@in_method
params = [\"\"]
script = \"\"
=> BadField application.A.component.C.method.M.params
@app
@component
@in_method
params = [\"in a\"]
script = \"\"
=> BadField application.A.component.C.method.M.params
@app
@component
@in_method
params = [\"a text\"]
script = \"\"
=> BadField application.A.component.C.method.M.params
@app
@component
@in_method
params = [\"In a text\"]
script = \"\"
=> BadField application.A.component.C.method.M.params
@app
@component
@in_method
params = [\"in 1 text\"]
script = \"\"
=> BadField application.A.component.C.method.M.params
@app
@component
@in_method
params = [\"in a number\"]
script = \"\"
=> BadField application.A.component.C.method.M.params
@app
@component
@in_method
params = [\"in  a text\"]
script = \"\"
=> BadField application.A.component.C.method.M.params
@app
@component
@in_method
params = [\"in a  text\"]
script = \"\"
=> BadField application.A.component.C.method.M.params
@app
@component
@in_method
params = [\"in a text \"]
script = \"\"
=> BadField application.A.component.C.method.M.params
@app
@component
@in_method
params = [\" in a text\"]
script = \"\"
=> BadField application.A.component.C.method.M.params
@app
@component
@in_method
params = [\"in a text\", \"in a whole\"]
script = \"\"
=> BadField application.A.component.C.method.M.params
@app
@component
@in_method
params = [\"in a text\", \"out b whole\"]
script = \"\"
=> NotQueueable application.A.component.C.method.M
@app
@component
@in_method
params = []
=> BadField application.A.component.C.method.M.script
@app
@component
@in_method
params = []
script = 1
=> BadField application.A.component.C.method.M.script
@small
more = 1
=> BadField application.A.component.C.method.M.more
@small
\"a b\" = 1
=> BadField application.A.component.C.method.M.?
[application.A]
id = \"6f1c2f9e0b7e4c529d0a1f2e3d4c5b01\"
@component
@method
=> a catalogue
[application.A]
id = \"{6F1C2F9E-0B7E-4C52-9D0A-1F2E3D4C5B01}\"
@component
@method
=> a catalogue
[application.A]
id = \"urn:uuid:6f1c2f9e-0b7e-4c52-9d0a-1f2e3d4c5b01\"
@component
@method
=> a catalogue
[application.A]
id = \"6f1c2f9e-0b7e-4c52-9d0a-1f2e3d4c5b02\"
@component
@method
=> BadField application.A.component.C.class
[application.A]
id = \"6F1C2F9E0B7E4C529D0A1F2E3D4C5B02\"
@component
@method
=> BadField application.A.component.C.class
[application.A]
id = \"{6f1c2f9e-0b7e-4c52-9d0a-1f2e3d4c5b03}\"
@component
@method
@class
=> BadField application.A.exception.X.class
@app
@component
@method
@in_class
class = \"urn:uuid:6F1C2F9E-0B7E-4C52-9D0A-1F2E3D4C5B02\"
final = \"\"
method = {}
=> BadField application.A.component.C.class
@small
[application.B]
id = \"6f1c2f9e-0b7e-4c52-9d0a-1f2e3d4c5b02\"
=> BadField application.B.id
[application.B]
id = \"6f1c2f9e-0b7e-4c52-9d0a-1f2e3d4c5b02\"
@small
=> BadField application.B.id
@small
[application.a]
id = \"6f1c2f9e-0b7e-4c52-9d0a-1f2e3d4c5b04\"
=> BadField application.a.component
@bom
@small
=> a catalogue
";
