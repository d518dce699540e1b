// Limits at their last value and one past it.
pub const LIMITS: &str = "\
*1048576
=> BadField application
*1048577
=> TextTooLong
[table]
*256 t# = {}
@small
=> a catalogue
[table]
*257 t# = {}
@small
=> BadField table
[table.t]
*10000 k# = 1
@small
=> a catalogue
[table.t]
*10001 k# = 1
@small
=> BadField table.t
[table.t]
\"\" = 1
*10000 k# = 1
@small
=> BadField table.t
[resource]
*64 r# = { mode = \"late\", phases = 2, rows = {} }
@small
=> a catalogue
[resource]
*65 r# = { mode = \"late\", phases = 2, rows = {} }
@small
=> BadField resource
[resource.r]
mode = \"late\"
phases = 2
[resource.r.rows]
*10000 k# = 1
@small
=> a catalogue
[resource.r]
mode = \"late\"
phases = 2
[resource.r.rows]
*10001 k# = 1
@small
=> BadField resource.r.rows
[application]
*64 A# = { id = \"100000000000000000000000000#\", component = { C = { class = \"200000000000000000000000000#\", method = { M = { params = [], script = \"\" } } } } }
=> a catalogue
[application]
*65 A# = { id = \"100000000000000000000000000#\", component = { C = { class = \"200000000000000000000000000#\", method = { M = { params = [], script = \"\" } } } } }
=> BadField application
@small
[application.A.exception]
*64 X# = { class = \"100000000000000000000000000#\", final = \"\", method = {} }
=> a catalogue
@small
[application.A.exception]
*65 X# = { class = \"100000000000000000000000000#\", final = \"\", method = {} }
=> BadField application.A.exception
@small
@in_class
@class_fields
*64 method.M# = { params = [], script = \"\" }
=> a catalogue
@small
@in_class
@class_fields
*65 method.M# = { params = [], script = \"\" }
=> BadField application.A.exception.X.method
@app
[application.A.component]
*64 C# = { class = \"100000000000000000000000000#\", method = { M = { params = [], script = \"\" } } }
=> a catalogue
@app
[application.A.component]
*65 C# = { class = \"100000000000000000000000000#\", method = { M = { params = [], script = \"\" } } }
=> BadField application.A.component
@app
@component
*64 method.M# = { params = [], script = \"\" }
=> a catalogue
@app
@component
*65 method.M# = { params = [], script = \"\" }
=> BadField application.A.component.C.method
@app
@component
@in_method
script = \"\"
params = [
*16 \"in p# text\",
]
=> a catalogue
@app
@component
@in_method
script = \"\"
params = [
*17 \"in p# text\",
]
=> BadField application.A.component.C.method.M.params
@app
@component
@in_method
params = []
script = '''
*64                                                               \u{20}
'''
=> a catalogue
@app
@component
@in_method
params = []
script = '''
*64                                                               \u{20}
a'''
=> BadScript application.A.component.C.method.M.script 1
@app
@component
@in_method
params = []
script = '''
*32 fail
'''
=> a catalogue
@app
@component
@in_method
params = []
script = '''
*33 fail
'''
=> BadScript application.A.component.C.method.M.script 33
@app
@component
@in_method
params = []
a = 1
script = '''
*64                                                               \u{20}
a'''
=> BadScript application.A.component.C.method.M.script 1
@app
@component
@in_method
params = [\"out a text\"]
script = '''
*64                                                               \u{20}
a'''
=> NotQueueable application.A.component.C.method.M
@small
@in_class
class = \"6f1c2f9e-0b7e-4c52-9d0a-1f2e3d4c5b03\"
method = {}
final = '''
*64                                                               \u{20}
a'''
=> BadScript application.A.exception.X.final 1
";
