use super::*;
use cl_types::{Copies, List, NoMemory, Same, Text};
use std::alloc::Global;
use std::process::Abort;
use std::test::Fail;

// What was made, where there was memory for it.
fn made<T>(rt: &impl Abort, made: Result<T, NoMemory>) -> T {
    made.expect(rt, "memory")
}

fn text(alloc: Global, bytes: &[u8]) -> Result<Text, NoMemory> {
    Ok(Text::of(Vec::from_slice(alloc, bytes)?))
}

fn label(alloc: Global, key: &[u8], value: &[u8]) -> Result<Labels, NoMemory> {
    let mut labels = Labels::new(alloc);
    labels.put(text(alloc, key)?, text(alloc, value)?)?;
    Ok(labels)
}

fn texts(alloc: Global, words: &[&[u8]]) -> Result<List<Text>, NoMemory> {
    let mut texts = Vec::new(alloc);
    for word in words {
        texts.push(text(alloc, word)?)?;
    }
    Ok(List::of(texts))
}

fn need(rt: &impl Abort, key: Text, op: Op, values: List<Text>) -> Need {
    assert!(rt; is_label_key(key.as_slice()));
    assert!(rt; are_label_values(values.as_slice()));
    assert!(rt; op.takes_values() != values.as_slice().is_empty());
    Need { key, op, values }
}

fn selector(
    rt: &impl Abort,
    alloc: Global,
    key: &[u8],
    op: Op,
    words: &[&[u8]],
) -> Result<Selector, NoMemory> {
    let need = need(rt, text(alloc, key)?, op, texts(alloc, words)?);
    let mut needs = List::new(alloc);
    needs.vec_mut().push(need)?;
    canon(alloc, needs)
}

// The key, the operator and the values of a need.
type Asked = (&'static [u8], Op, &'static [&'static [u8]]);

// Lists of needs, and which of the labels `app=web`, `app=job` and none each selects.
const SELECTORS: &[(&[Asked], [bool; 3])] = &[
    (&[], [true, true, true]),
    (
        &[(b"app", Op::OneOf, &[b"db", b"web", b"db"])],
        [true, false, false],
    ),
    (
        &[(b"app", Op::NoneOf, &[b"db", b"web", b"db"])],
        [false, true, true],
    ),
    (&[(b"app", Op::Present, &[])], [true, true, false]),
    (&[(b"app", Op::Missing, &[])], [false, false, true]),
    (
        &[(b"app", Op::Present, &[]), (b"app", Op::NoneOf, &[b"job"])],
        [true, false, false],
    ),
    (
        &[(b"env", Op::Missing, &[]), (b"app", Op::Present, &[])],
        [true, true, false],
    ),
    (
        &[
            (b"app", Op::OneOf, &[b"web"]),
            (b"app", Op::OneOf, &[b"web"]),
        ],
        [true, false, false],
    ),
];

fn selector_of(rt: &impl Abort, alloc: Global, asked: &[Asked]) -> Result<Selector, NoMemory> {
    let mut needs = List::new(alloc);
    for (key, op, words) in asked {
        let need = need(rt, text(alloc, key)?, *op, texts(alloc, words)?);
        needs.vec_mut().push(need)?;
    }
    canon(alloc, needs)
}

#[test]
fn selectors_and_labels(rt: HostRuntime) {
    let alloc = rt.alloc();
    let web = made(&rt, label(alloc, b"app", b"web"));
    let job = made(&rt, label(alloc, b"app", b"job"));
    let none = Labels::new(alloc);
    for (asked, wanted) in SELECTORS {
        let selector = made(&rt, selector_of(&rt, alloc, asked));
        let selects = [
            selector.selects(&web),
            selector.selects(&job),
            selector.selects(&none),
        ];
        assert!(rt; selects == *wanted);
    }
}

fn any_app(rt: &impl Abort, alloc: Global) -> Result<Need, NoMemory> {
    Ok(need(rt, text(alloc, b"app")?, Op::Present, List::new(alloc)))
}

fn no_env(rt: &impl Abort, alloc: Global) -> Result<Need, NoMemory> {
    Ok(need(rt, text(alloc, b"env")?, Op::Missing, List::new(alloc)))
}

fn both(alloc: Global, first: Need, second: Need) -> Result<Selector, NoMemory> {
    let mut needs = List::new(alloc);
    needs.vec_mut().push(first)?;
    needs.vec_mut().push(second)?;
    canon(alloc, needs)
}

#[test]
fn order_of_needs(rt: HostRuntime) {
    let alloc = rt.alloc();
    let app = made(&rt, any_app(&rt, alloc));
    let env = made(&rt, no_env(&rt, alloc));
    let there = made(
        &rt,
        both(alloc, made(&rt, app.copy()), made(&rt, env.copy())),
    );
    let back = made(&rt, both(alloc, env, app));
    assert!(rt; there.same(&back));
}

fn in_shop(rt: &impl Abort, alloc: Global) -> Result<GroupKey, NoMemory> {
    let name = text(alloc, b"shop")?;
    assert!(rt; is_namespace_name(name.as_slice()));
    Ok(GroupKey {
        scope: Scope::Namespace(name),
        pods: selector(rt, alloc, b"app", Op::NoneOf, &[b"web"])?,
    })
}

fn in_teams(rt: &impl Abort, alloc: Global) -> Result<GroupKey, NoMemory> {
    let pods = both(alloc, no_env(rt, alloc)?, any_app(rt, alloc)?)?;
    let teams = selector(rt, alloc, b"k8s.io/team", Op::OneOf, &[b"b", b"a"])?;
    Ok(GroupKey {
        scope: Scope::Namespaces(teams),
        pods,
    })
}

#[test]
fn group_texts(rt: HostRuntime) {
    let alloc = rt.alloc();
    let mut out = made(&rt, text(alloc, b"> "));
    made(&rt, write_group(&mut out, &made(&rt, in_teams(&rt, alloc))));
    made(&rt, write_group(&mut out, &made(&rt, in_shop(&rt, alloc))));
    let want = b"> [k8s.io/team in (a,b)]/[app,!env]shop/[app notin (web)]";
    assert!(rt; out.as_slice() == want.as_slice());
}

#[test]
fn members_by_name(rt: HostRuntime) {
    let alloc = rt.alloc();
    let group = made(&rt, in_shop(&rt, alloc));
    let none = Labels::new(alloc);
    assert!(rt; group.has(&made(&rt, text(alloc, b"shop")), &none, &none));
    assert!(rt; !group.has(&made(&rt, text(alloc, b"till")), &none, &none));
}

#[test]
fn members_by_labels(rt: HostRuntime) {
    let alloc = rt.alloc();
    let group = made(&rt, in_teams(&rt, alloc));
    let name = made(&rt, text(alloc, b"shop"));
    let team = made(&rt, label(alloc, b"k8s.io/team", b"a"));
    let job = made(&rt, label(alloc, b"app", b"job"));
    assert!(rt; group.has(&name, &team, &job));
    assert!(rt; !group.has(&name, &job, &job));
    assert!(rt; !group.has(&name, &team, &team));
}

#[test]
fn names(rt: HostRuntime) {
    for name in b"a kube-system 0-9".split(|b| *b == b' ') {
        assert!(rt; is_namespace_name(name), "{name:?}");
        assert!(rt; is_object_name(name), "{name:?}");
    }
    for name in b"-a a- A a_b a/b ".split(|b| *b == b' ') {
        assert!(rt; !is_namespace_name(name), "{name:?}");
        assert!(rt; !is_object_name(name), "{name:?}");
    }
    for name in b"a.b 1.2.3".split(|b| *b == b' ') {
        assert!(rt; !is_namespace_name(name), "{name:?}");
        assert!(rt; is_object_name(name), "{name:?}");
    }
    for name in b".a a. a..b a.-b a-.b".split(|b| *b == b' ') {
        assert!(rt; !is_object_name(name), "{name:?}");
    }
}

#[test]
fn label_forms(rt: HostRuntime) {
    for name in b"a Web_1 a..b a.-b 0".split(|b| *b == b' ') {
        assert!(rt; is_label_key(name) && is_label_value(name), "{name:?}");
    }
    for key in b"a/b k8s.io/Team".split(|b| *b == b' ') {
        assert!(rt; is_label_key(key) && !is_label_value(key), "{key:?}");
    }
    for key in b"/a a/ A/b a/b/c a,b a( ![ -a a_".split(|b| *b == b' ') {
        assert!(rt; !is_label_key(key) && !is_label_value(key), "{key:?}");
    }
    assert!(rt; is_label_value(b"") && !is_label_key(b""));
}

#[test]
fn lengths(rt: HostRuntime) -> Result<(), Fail> {
    let text = Vec::from_elem(rt.alloc(), b'a', 254)?;
    let text = text.as_slice();
    assert!(rt; text.len() == 254);
    assert!(rt; is_namespace_name(&text[..63]) && !is_namespace_name(&text[..64]));
    assert!(rt; is_object_name(&text[..253]) && !is_object_name(text));
    assert!(rt; is_label_key(&text[..63]) && !is_label_key(&text[..64]));
    assert!(rt; is_label_value(&text[..63]) && !is_label_value(&text[..64]));
    Ok(())
}

// Whether the value and its copy are one value.
fn copied<T: Copies + Same + Drop>(value: Result<T, NoMemory>) -> Result<bool, NoMemory> {
    let value = value?;
    Ok(value.copy()?.same(&value))
}

fn one_label(alloc: Global) -> Result<Label, NoMemory> {
    Ok(Label {
        key: text(alloc, b"app")?,
        value: text(alloc, b"web")?,
    })
}

#[test]
fn copies_are_the_same(rt: HostRuntime) {
    let alloc = rt.alloc();
    let rows = [
        ("label", copied(one_label(alloc))),
        ("labels", copied(label(alloc, b"app", b"web"))),
        ("need", copied(any_app(&rt, alloc))),
        (
            "selector",
            copied(selector(&rt, alloc, b"app", Op::NoneOf, &[b"web", b"job"])),
        ),
        ("group of a namespace", copied(in_shop(&rt, alloc))),
        ("group of selected namespaces", copied(in_teams(&rt, alloc))),
    ];
    for (name, answer) in rows {
        assert!(rt; answer == Ok(true), "{name}");
    }
}
