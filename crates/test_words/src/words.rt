//! The words of `patch`, each alone and together, and commands of the other tools.

/// Switches short and long, words that stand together, and values that are texts, names and numbers, attached and apart.
/// `clap` takes one `=` off an attached value. Behind `patch` stands what isn't as without words, behind another tool the whole job;
/// there patterns are lists of bytes: `a` is 97, `*` is 42.
pub const ROWS: &str = r#"
patch =>
patch|-c => only: Some(Context)
patch|-e => only: Some(Ed)
patch|-n => only: Some(Normal)
patch|-u => only: Some(Unified)
patch|-R => reverse: true
patch|-f => force: true
patch|-t => batch: true
patch|-N => forward: true
patch|-l => loose: true
patch|-E => remove_empty: true
patch|-b => backup: true, numbers: Existing
patch|-s => silent: true
patch|--context => only: Some(Context)
patch|--ed => only: Some(Ed)
patch|--normal => only: Some(Normal)
patch|--unified => only: Some(Unified)
patch|--reverse => reverse: true
patch|--force => force: true
patch|--batch => batch: true
patch|--forward => forward: true
patch|--ignore-whitespace => loose: true
patch|--remove-empty-files => remove_empty: true
patch|--backup => backup: true, numbers: Existing
patch|--backup-if-mismatch =>
patch|--no-backup-if-mismatch => mismatch_backup: false
patch|--dry-run => dry_run: true
patch|--silent => silent: true
patch|--quiet => silent: true
patch|--verbose => verbose: true
patch|-RftNlEbs => reverse: true, force: true, batch: true, forward: true, loose: true, remove_empty: true, backup: true, numbers: Existing, silent: true
patch|-Rp1 => strip: Some(1), reverse: true
patch|-bp|1|-F0 => strip: Some(1), fuzz: 0, backup: true, numbers: Existing
patch|-ni-|f|--quiet|--backup-if-mismatch => only: Some(Normal), file: Some("f"), silent: true
patch|-zR => suffix: Some("R")
patch|--quiet|--verbose => silent: true, verbose: true
patch|-f|-N|-t => force: true, batch: true, forward: true
patch|f|-R|p => reverse: true, file: Some("f"), input: File("p")
patch|-R|--|-f|-p1 => reverse: true, file: Some("-f"), input: File("-p1")
patch|-p007|--|f|- => strip: Some(7), file: Some("f")
patch|--|-- => file: Some("--")
patch|-- =>
patch|-u|--no-backup-if-mismatch|-d./d/|--output=o|-r|a//r|--reject-format=context|--dry-run|--verbose|--plan=a|--buffer=512|-p4294967295|-z~|-Bold/|f|p.ptmp => only: Some(Unified), strip: Some(4294967295), mismatch_backup: false, suffix: Some("~"), prefix: Some("old/"), dir: Some("d"), file: Some("f"), input: File("p.ptmp"), output: Some("o"), reject: Some("a/r"), reject_form: Some(Context), dry_run: true, verbose: true, plan: Whole, buffer: 512
patch|-z|x => suffix: Some("x")
patch|-zx => suffix: Some("x")
patch|-z=~ => suffix: Some("~")
patch|--suffix|x => suffix: Some("x")
patch|--suffix=x => suffix: Some("x")
patch|-z|.orig => suffix: Some(".orig")
patch|-z|.. => suffix: Some("..")
patch|-z|.ptmp~ => suffix: Some(".ptmp~")
patch|-z|- => suffix: Some("-")
patch|-z-b => suffix: Some("-b")
patch|-z|é => suffix: Some("é")
patch|-z|  => suffix: Some(" ")
patch|-B|b/ => prefix: Some("b/")
patch|-Bb => prefix: Some("b")
patch|--prefix|b => prefix: Some("b")
patch|--prefix=b/ => prefix: Some("b/")
patch|-B| => prefix: Some("")
patch|--prefix= => prefix: Some("")
patch|-B|.. => prefix: Some("..")
patch|-B|a/. => prefix: Some("a/.")
patch|-B|.ptmp => prefix: Some(".ptmp")
patch|--reject-format|context => reject_form: Some(Context)
patch|--reject-format=context => reject_form: Some(Context)
patch|--reject-format=unified => reject_form: Some(Unified)
patch|--plan|a => plan: Whole, buffer: 65536
patch|--plan=a => plan: Whole, buffer: 65536
patch|--plan=auto =>
patch|--plan=b => plan: Padded, buffer: 65536
patch|--plan|packed => plan: Packed, buffer: 65536
patch|f => file: Some("f")
patch|f|p.diff => file: Some("f"), input: File("p.diff")
patch|./a//f/ => file: Some("a/f")
patch|-|p => file: Some("-"), input: File("p")
patch|f|- => file: Some("f")
patch|f|x.ptmp => file: Some("f"), input: File("x.ptmp")
patch|x.ptmp/f => file: Some("x.ptmp/f")
patch|-i|a => input: File("a")
patch|-ia => input: File("a")
patch|--input|a => input: File("a")
patch|--input=a => input: File("a")
patch|-i|- =>
patch|-i- =>
patch|--input=- =>
patch|-i-x => input: File("-x")
patch|-i|a|f => file: Some("f"), input: File("a")
patch|-d|d => dir: Some("d")
patch|-dd => dir: Some("d")
patch|--directory|d => dir: Some("d")
patch|--directory=d => dir: Some("d")
patch|-d|x.ptmp => dir: Some("x.ptmp")
patch|-d|- => dir: Some("-")
patch|-o|o => output: Some("o")
patch|-oo => output: Some("o")
patch|--output|o => output: Some("o")
patch|--output=o => output: Some("o")
patch|-o|x.ptmp/y => output: Some("x.ptmp/y")
patch|-r|r => reject: Some("r")
patch|-rr => reject: Some("r")
patch|--reject-file|r => reject: Some("r")
patch|--reject-file=r => reject: Some("r")
patch|-r|- => no_rejects: true
patch|-r- => no_rejects: true
patch|--reject-file=- => no_rejects: true
patch|/etc//x/./y => file: Some("/etc/x/y")
patch|../a/../f => file: Some("../a/../f")
patch|..|/p => file: Some(".."), input: File("/p")
patch|-i|../x.patch => input: File("../x.patch")
patch|-d|/usr/src/ => dir: Some("/usr/src")
patch|-d|.. => dir: Some("..")
patch|-d|. =>
patch|-d|.// =>
patch|-o|/x/../o => output: Some("/x/../o")
patch|-r|/x/r => reject: Some("/x/r")
patch|-r|../- => reject: Some("../-")
patch|-B|/tmp/ => prefix: Some("/tmp/")
patch|-B|/ => prefix: Some("/")
patch|-B|../ => prefix: Some("../")
patch|-V|simple =>
patch|-Vnever =>
patch|--version-control=simple =>
patch|--version-control|never =>
patch|-g0 =>
patch|-g|00 =>
patch|--get=0 =>
patch|--binary => keep_returns: true
patch|--skip-binary => skip_binary: true
patch|--skip-binary|-s|-p1 => strip: Some(1), skip_binary: true, silent: true
patch|-V|no|-V|ne|-V|o|-Vs =>
patch|-V|t => numbers: Always
patch|-V|nu => numbers: Always
patch|-Vnumbered => numbers: Always
patch|-b|--version-control=numbered => backup: true, numbers: Always
patch|-b|--version-control=never => backup: true
patch|-b|-z|.old => backup: true, suffix: Some(".old")
patch|-b|--posix => backup: true, mismatch_backup: false, posix: true
patch|-V|exist => numbers: Existing
patch|-Ve => numbers: Existing
patch|--version-control=nil => numbers: Existing
patch|--version-control|ni => numbers: Existing
patch|-Vt|-V|existing|-Voff =>
patch|--version-control=numbered|-z|.x => suffix: Some(".x")
patch|-B|old/|-Vt => prefix: Some("old/")
patch|-V|existing|-Y|.o. => base_prefix: Some(".o.")
patch|-Vt|-B| => prefix: Some("")
patch|-Y|d/ => base_prefix: Some("d/")
patch|-Yb => base_prefix: Some("b")
patch|--basename-prefix=.old/x => base_prefix: Some(".old/x")
patch|--basename-prefix|b|-Bp/|-zs => suffix: Some("s"), prefix: Some("p/"), base_prefix: Some("b")
patch|-Y| => base_prefix: Some("")
patch|-Y|.. => base_prefix: Some("..")
patch|-Ya|-Y|b => base_prefix: Some("b")
patch|-t|-F|0|-N|-p1|-u|-V|never|-E|-b|-B|.pc/x/|--reject-file=- => only: Some(Unified), strip: Some(1), fuzz: 0, batch: true, forward: true, remove_empty: true, backup: true, prefix: Some(".pc/x/"), no_rejects: true
patch|--posix => mismatch_backup: false, posix: true
patch|--posix|--backup-if-mismatch => posix: true
patch|--posix|--no-backup-if-mismatch => mismatch_backup: false, posix: true
patch|-D|X => define: Some("X")
patch|-DX => define: Some("X")
patch|-D=X => define: Some("X")
patch|--ifdef=_a9 => define: Some("_a9")
patch|--ifdef|zZ_0 => define: Some("zZ_0")
patch|-RD|_ => reverse: true, define: Some("_")
patch|-p0 => strip: Some(0)
patch|-p|0 => strip: Some(0)
patch|--strip=1 => strip: Some(1)
patch|--strip|1 => strip: Some(1)
patch|-p=5 => strip: Some(5)
patch|-p|007 => strip: Some(7)
patch|-p4294967295 => strip: Some(4294967295)
patch|-F0 => fuzz: 0
patch|-F|2 =>
patch|--fuzz=3 => fuzz: 3
patch|--fuzz|3 => fuzz: 3
patch|-F007 => fuzz: 7
patch|-F|4294967295 => fuzz: 4294967295
patch|--buffer|512 => buffer: 512
patch|--buffer=1048576 => buffer: 1048576
patch|--buffer=000512 => buffer: 512
patch|--buffer=65536 => buffer: 65536
patch|-p1|-p1 => strip: Some(1)
patch|-p1|--strip=2 => strip: Some(2)
patch|-p2|-Rp1 => strip: Some(1), reverse: true
patch|-N|-N => forward: true
patch|-NN|--forward => forward: true
patch|-s|--quiet|--silent|-s => silent: true
patch|-u|-u|--unified => only: Some(Unified)
patch|-F1|--fuzz|0 => fuzz: 0
patch|-zx|--suffix=y => suffix: Some("y")
patch|-i|a|--input=b => input: File("b")
patch|-d|a|-d|. =>
patch|--plan=a|--plan=b => plan: Padded, buffer: 65536
patch|--dry => dry_run: true
patch|--dry-r|--rev|--st=1 => strip: Some(1), reverse: true, dry_run: true
patch|--inp|a|--reject-fo=context|--qui => input: File("a"), reject_form: Some(Context), silent: true
patch|--backup-i =>
patch|--no-b => mismatch_backup: false
patch|--|--dry => file: Some("--dry")
patch|f|--dry|--|--rev => file: Some("f"), input: File("--rev"), dry_run: true
patch|-g1|-g-1|--get=+5|--get|18446744073709551617 =>
patch|-V|none|-V|off|-Vnev|--version-c=s =>
patch|--quoting-style=literal|--quoting-style=shell|--quoting-style=shell-always|--quoting-style=c|--quot=escape =>
patch|--read-only=warn =>
patch|--read-only=warn|--read-only=ignore => read_only: Replaced
patch|--read-only=ignore|--read-only|fail => read_only: Refused
patch|--read-only=fail|--read-only=warn =>
patch|-T => times: Local
patch|-Z => times: Utc
patch|-T|-Z => times: Utc
patch|-ZT => times: Utc
patch|--set-time => times: Local
patch|--set-utc|--set-time => times: Utc
patch|--set-t|-R => reverse: true, times: Local
patch|--sync=none => sync: Never
patch|-o|- => output: Some("-")
patch|--follow-symlinks => follow_links: true
patch|-x3|--debug=1 =>
patch|--sync|none|--sync=each =>
lsdiff|-snp1|-i|a*|-xb|-Ic|-Xd|--strip=2|--skip-binary|e => Ok(List(ListJob { input: File("e"), select: Select { strip: 1, include: [[97, 42]], exclude: [[98]], include_file: Some("c"), exclude_file: Some("d"), only_included: true, skip_binary: true }, shown: Shown { numbers: true, hunks: false, status: true, empty_absent: false, strip: 2, prefix: [], label: [], hunk_label: [] }, number_files: false }))
lsdiff|-nvE|-p1|--addprefix=ab => Ok(List(ListJob { input: Standard, select: Select { strip: 1, include: [], exclude: [], include_file: None, exclude_file: None, only_included: false, skip_binary: true }, shown: Shown { numbers: true, hunks: true, status: false, empty_absent: true, strip: 1, prefix: [97, 98], label: [], hunk_label: [] }, number_files: false }))
lsdiff|-v|-p1|-ia|--empty-files-as-removed => Ok(List(ListJob { input: Standard, select: Select { strip: 1, include: [[97]], exclude: [], include_file: None, exclude_file: None, only_included: true, skip_binary: true }, shown: Shown { numbers: false, hunks: false, status: false, empty_absent: true, strip: 0, prefix: [], label: [], hunk_label: [] }, number_files: false }))
lsdiff|-H|e => Ok(List(ListJob { input: File("e"), select: Select { strip: 0, include: [], exclude: [], include_file: None, exclude_file: None, only_included: false, skip_binary: true }, shown: Shown { numbers: false, hunks: false, status: false, empty_absent: false, strip: 0, prefix: [], label: [101, 58], hunk_label: [101, 45] }, number_files: false }))
lsdiff|--with|-hN|- => Ok(List(ListJob { input: Standard, select: Select { strip: 0, include: [], exclude: [], include_file: None, exclude_file: None, only_included: false, skip_binary: true }, shown: Shown { numbers: false, hunks: false, status: false, empty_absent: false, strip: 0, prefix: [], label: [], hunk_label: [] }, number_files: true }))
filterdiff|--hunks=1,2-5|--lines=-3|-F7-|--format=ed => Ok(Filter(FilterJob { input: Standard, select: Select { strip: 0, include: [], exclude: [], include_file: None, exclude_file: None, only_included: false, skip_binary: true }, hunks: Some(Ranges { items: [(1, 1), (2, 5)], others: false }), lines: Some(Ranges { items: [(0, 3)], others: false }), files: Some(Ranges { items: [(7, 4294967295)], others: false }), format: Some(Ed), verbose: false, style: Style { strip: 0, prefix: None, old_prefix: [], new_prefix: [], no_stamps: false, clean: false }, marks: Marks { annotate: false, numbered: None } }))
filterdiff|-v|-#x0,-|--lines|x4-4|--files=0-9 => Ok(Filter(FilterJob { input: Standard, select: Select { strip: 0, include: [], exclude: [], include_file: None, exclude_file: None, only_included: false, skip_binary: true }, hunks: Some(Ranges { items: [(0, 0), (0, 4294967295)], others: true }), lines: Some(Ranges { items: [(4, 4)], others: true }), files: Some(Ranges { items: [(0, 9)], others: false }), format: None, verbose: true, style: Style { strip: 0, prefix: None, old_prefix: [], new_prefix: [], no_stamps: false, clean: false }, marks: Marks { annotate: false, numbered: None } }))
filterdiff|--strip=1|--addp|ab|--addold=c|--addnewprefix=d|--remove|--clean|-p2|f => Ok(Filter(FilterJob { input: File("f"), select: Select { strip: 2, include: [], exclude: [], include_file: None, exclude_file: None, only_included: false, skip_binary: true }, hunks: None, lines: None, files: None, format: None, verbose: false, style: Style { strip: 1, prefix: Some([97, 98]), old_prefix: [99], new_prefix: [100], no_stamps: true, clean: true }, marks: Marks { annotate: false, numbered: None } }))
filterdiff|--addprefix= => Ok(Filter(FilterJob { input: Standard, select: Select { strip: 0, include: [], exclude: [], include_file: None, exclude_file: None, only_included: false, skip_binary: true }, hunks: None, lines: None, files: None, format: None, verbose: false, style: Style { strip: 0, prefix: Some([]), old_prefix: [], new_prefix: [], no_stamps: false, clean: false }, marks: Marks { annotate: false, numbered: None } }))
lsdiff|--addoldprefix=a => Err(Usage)
grepdiff|-E|--output-matching=hunk|[a-z]+|f => Ok(Grep(GrepJob { input: File("f"), select: Select { strip: 0, include: [], exclude: [], include_file: None, exclude_file: None, only_included: false, skip_binary: true }, pattern: "[a-z]+", pattern_file: None, searched: All, output: Hunks, shown: Shown { numbers: false, hunks: false, status: false, empty_absent: false, strip: 0, prefix: [], label: [], hunk_label: [] }, marks: Marks { annotate: false, numbered: None } }))
grepdiff|-nvs|-Xd|--strip=1|--addprefix=a|--only-match=additions|x => Ok(Grep(GrepJob { input: Standard, select: Select { strip: 0, include: [], exclude: [], include_file: None, exclude_file: Some("d"), only_included: false, skip_binary: true }, pattern: "x", pattern_file: None, searched: Added, output: Names, shown: Shown { numbers: true, hunks: true, status: true, empty_absent: false, strip: 1, prefix: [97], label: [], hunk_label: [] }, marks: Marks { annotate: false, numbered: None } }))
splitdiff|-a|./a//f/ => Ok(Split(SplitJob { input: "a/f", every: true, names: PartNames { by_name: false, directory: None, bare: false, strip: 0 }, verbose: false, skip_binary: true, sync: Each }))
splitdiff|--skip-binary|f => Ok(Split(SplitJob { input: "f", every: false, names: PartNames { by_name: false, directory: None, bare: false, strip: 0 }, verbose: false, skip_binary: true, sync: Each }))
recountdiff|- => Ok(Recount(Standard))
patchgen|0|1|20 => Ok(Gen(GenJob { seed: 0, files: 1, lines: 20, plan: Auto, buffer: 4294967295, sync: Each }))
patchgen|4294967295|1|20 => Ok(Gen(GenJob { seed: 4294967295, files: 1, lines: 20, plan: Auto, buffer: 4294967295, sync: Each }))
patchgen|7|1000|10000 => Ok(Gen(GenJob { seed: 7, files: 1000, lines: 10000, plan: Auto, buffer: 4294967295, sync: Each }))
patchgen|0|1|9999999 => Ok(Gen(GenJob { seed: 0, files: 1, lines: 9999999, plan: Auto, buffer: 4294967295, sync: Each }))
patchgen|0|2|5000000 => Ok(Gen(GenJob { seed: 0, files: 2, lines: 5000000, plan: Auto, buffer: 4294967295, sync: Each }))
patchgen|007|001|0020 => Ok(Gen(GenJob { seed: 7, files: 1, lines: 20, plan: Auto, buffer: 4294967295, sync: Each }))
patchgen|--plan=a|0|1|20 => Ok(Gen(GenJob { seed: 0, files: 1, lines: 20, plan: Whole, buffer: 65536, sync: Each }))
patchgen|--plan|b|0|1|20 => Ok(Gen(GenJob { seed: 0, files: 1, lines: 20, plan: Padded, buffer: 65536, sync: Each }))
patchgen|0|1|20|--plan=packed => Ok(Gen(GenJob { seed: 0, files: 1, lines: 20, plan: Packed, buffer: 65536, sync: Each }))
patchgen|0|--plan=auto|1|20 => Ok(Gen(GenJob { seed: 0, files: 1, lines: 20, plan: Auto, buffer: 4294967295, sync: Each }))
patchgen|--buffer=512|0|1|20 => Ok(Gen(GenJob { seed: 0, files: 1, lines: 20, plan: Auto, buffer: 512, sync: Each }))
patchgen|--buffer|1048576|0|1|20 => Ok(Gen(GenJob { seed: 0, files: 1, lines: 20, plan: Auto, buffer: 1048576, sync: Each }))
patchgen|--plan=b|--buffer=4096|7|3|40 => Ok(Gen(GenJob { seed: 7, files: 3, lines: 40, plan: Padded, buffer: 4096, sync: Each }))
reversediff|a/f => Ok(Flip(File("a/f")))
patchstack|pop => Ok(Stack(StackJob { op: Pop, all: false, sync: Each }))
patchstack|applied => Ok(Stack(StackJob { op: Applied, all: false, sync: Each }))
patchstack|--sy=none|push => Ok(Stack(StackJob { op: Push, all: false, sync: Never }))
patchstack|push|-a => Ok(Stack(StackJob { op: Push, all: true, sync: Each }))
patchstack|--all|pop|-a => Ok(Stack(StackJob { op: Pop, all: true, sync: Each }))
patchstack|--a|--sync=none|pop => Ok(Stack(StackJob { op: Pop, all: true, sync: Never }))
patchgen|--pl=a|--plan=b|0|1|20|--sync=none => Ok(Gen(GenJob { seed: 0, files: 1, lines: 20, plan: Padded, buffer: 65536, sync: Never }))
filterdiff|--annotate|--as-numbered-lines=before => Ok(Filter(FilterJob { input: Standard, select: Select { strip: 0, include: [], exclude: [], include_file: None, exclude_file: None, only_included: false, skip_binary: true }, hunks: None, lines: None, files: None, format: None, verbose: false, style: Style { strip: 0, prefix: None, old_prefix: [], new_prefix: [], no_stamps: false, clean: false }, marks: Marks { annotate: true, numbered: Some(Before) } }))
filterdiff|--as-numbered-lines=after|--format=context => Err(Usage)
filterdiff|--as-numbered-lines=old => Err(Usage)
grepdiff|--as-numbered-lines=after|x => Err(Usage)
grepdiff|--output-matching=file|--as-num|after|x => Ok(Grep(GrepJob { input: Standard, select: Select { strip: 0, include: [], exclude: [], include_file: None, exclude_file: None, only_included: false, skip_binary: true }, pattern: "x", pattern_file: None, searched: All, output: Files, shown: Shown { numbers: false, hunks: false, status: false, empty_absent: false, strip: 0, prefix: [], label: [], hunk_label: [] }, marks: Marks { annotate: false, numbered: Some(After) } }))
grepdiff|-nf|p|t => Ok(Grep(GrepJob { input: File("t"), select: Select { strip: 0, include: [], exclude: [], include_file: None, exclude_file: None, only_included: false, skip_binary: true }, pattern: "", pattern_file: Some("p"), searched: All, output: Names, shown: Shown { numbers: true, hunks: false, status: false, empty_absent: false, strip: 0, prefix: [], label: [], hunk_label: [] }, marks: Marks { annotate: false, numbered: None } }))
grepdiff|--file=p|-H => Ok(Grep(GrepJob { input: Standard, select: Select { strip: 0, include: [], exclude: [], include_file: None, exclude_file: None, only_included: false, skip_binary: true }, pattern: "", pattern_file: Some("p"), searched: All, output: Names, shown: Shown { numbers: false, hunks: false, status: false, empty_absent: false, strip: 0, prefix: [], label: [40, 115, 116, 97, 110, 100, 97, 114, 100, 32, 105, 110, 112, 117, 116, 41, 58], hunk_label: [40, 115, 116, 97, 110, 100, 97, 114, 100, 32, 105, 110, 112, 117, 116, 41, 45] }, marks: Marks { annotate: false, numbered: None } }))
grepdiff|-fp|x|t => Err(Usage)
splitdiff|-adEv|-p2|-D|d/e|f => Ok(Split(SplitJob { input: "f", every: true, names: PartNames { by_name: true, directory: Some("d/e"), bare: true, strip: 2 }, verbose: true, skip_binary: true, sync: Each }))
splitdiff|-aa|--skip|--skip-binary|--sync=none|f => Ok(Split(SplitJob { input: "f", every: true, names: PartNames { by_name: false, directory: None, bare: false, strip: 0 }, verbose: false, skip_binary: true, sync: Never }))
lsdiff|-ss|--li|--strip=1|--strip=2|-p3|-p4|-ia|--include=b|-Ic|-Id|e => Ok(List(ListJob { input: File("e"), select: Select { strip: 4, include: [[97], [98]], exclude: [], include_file: Some("d"), exclude_file: None, only_included: true, skip_binary: true }, shown: Shown { numbers: true, hunks: false, status: true, empty_absent: false, strip: 2, prefix: [], label: [], hunk_label: [] }, number_files: false }))
"#;
