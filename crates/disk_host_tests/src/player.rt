// Steps of a scene, made one after another.
use crate::answer::{Answer, done};
use crate::array::{Array, is_refused, part_of};
use crate::outside::sink_step;
use crate::scene::Scene;
use crate::system::{Plan, call_of};
use crate::words::{first_of, number_of};
use disk_model::{Places, Text};
use std::mem;

/// The scene, what is named and planned in it so far, and what was opened there.
#[derive(Drop)]
pub struct Player {
    rt: HostRuntime,
    scene: Option<Scene>,
    plan: Plan,
    places: Places,
    log: Option<Text>,
    array: Option<Array>,
}

#[derive(Clone, Copy)]
enum Act {
    Scene,
    Dir,
    Parity,
    Content,
    Log,
    Wants,
    Fails,
    Short,
    Open,
    Refused,
    Here,
    Sink,
}

fn act_of(verb: &str) -> Option<Act> {
    match verb {
        "scene" => Some(Act::Scene),
        "dir" => Some(Act::Dir),
        "parity" => Some(Act::Parity),
        "content" => Some(Act::Content),
        "log" => Some(Act::Log),
        "wants" => Some(Act::Wants),
        "fails" => Some(Act::Fails),
        "short" => Some(Act::Short),
        "open" => Some(Act::Open),
        "refused" => Some(Act::Refused),
        "here" => Some(Act::Here),
        "sink" => Some(Act::Sink),
        _ => None,
    }
}

impl Player {
    pub fn new(rt: HostRuntime) -> Player {
        Player {
            rt,
            scene: None,
            plan: Plan::all_pass(rt.alloc()),
            places: no_places(rt),
            log: None,
            array: None,
        }
    }

    /// What a step answers, `None` where there is no such step, or no memory for it.
    pub fn play(&mut self, step: &str) -> Option<Answer> {
        let (verb, rest) = first_of(step);
        match act_of(verb) {
            Some(act) => self.act(act, rest),
            None => self.of_array(verb, rest),
        }
    }

    fn of_array(&mut self, verb: &str, rest: &str) -> Option<Answer> {
        let part = part_of(verb)?;
        match &mut self.array {
            Some(array) => array.play(self.rt.alloc(), part, rest),
            None => None,
        }
    }

    fn act(&mut self, act: Act, rest: &str) -> Option<Answer> {
        match act {
            Act::Scene => self.begin(rest),
            Act::Dir => named(self.rt, &mut self.places.dirs, rest),
            Act::Parity => named(self.rt, &mut self.places.parities, rest),
            Act::Content => named(self.rt, &mut self.places.contents, rest),
            Act::Log => self.name_log(rest),
            Act::Wants => self.want(rest),
            Act::Fails => self.fail(rest),
            Act::Short => self.shorten(),
            Act::Open => self.open(),
            Act::Refused => self.is_refused(rest),
            Act::Here => self.here(rest),
            Act::Sink => sink_step(self.rt, rest),
        }
    }

    // Leaves the scene, and begins another where there is a name.
    fn begin(&mut self, name: &str) -> Option<Answer> {
        self.plan = Plan::all_pass(self.rt.alloc());
        self.places = no_places(self.rt);
        self.log = None;
        self.array = None;
        if let Some(scene) = self.scene.take() {
            scene.leave().ok()?;
        }
        if !name.is_empty() {
            self.scene = Some(Scene::new(self.rt, name).ok()?);
        }
        Some(Answer::Done)
    }

    // The next of the calls that alone are to pass.
    fn want(&mut self, words: &str) -> Option<Answer> {
        let (call, name) = first_of(words);
        let call = call_of(call)?;
        Some(done(self.plan.want(self.rt.alloc(), call, name)))
    }

    fn fail(&mut self, words: &str) -> Option<Answer> {
        let (place, _) = number_of(words)?;
        self.plan.failing = Some(usize::try_from(place).ok()?);
        Some(Answer::Done)
    }

    fn shorten(&mut self) -> Option<Answer> {
        self.plan.short = true;
        Some(Answer::Done)
    }

    fn name_log(&mut self, name: &str) -> Option<Answer> {
        self.log = Some(Text::new(self.rt.alloc(), name).ok()?);
        Some(Answer::Done)
    }

    // The log is named for one opening.
    fn open(&mut self) -> Option<Answer> {
        let plan = mem::replace(&mut self.plan, Plan::all_pass(self.rt.alloc()));
        let log = self.log.take();
        self.array = Some(Array::open(self.rt, plan, &self.places, log)?);
        Some(Answer::Done)
    }

    fn is_refused(&mut self, causes: &str) -> Option<Answer> {
        let plan = mem::replace(&mut self.plan, Plan::all_pass(self.rt.alloc()));
        is_refused(self.rt, plan, &self.places, self.log.take(), causes)
    }

    fn here(&self, step: &str) -> Option<Answer> {
        match &self.scene {
            Some(scene) => scene.play(step),
            None => None,
        }
    }
}

fn no_places(rt: HostRuntime) -> Places {
    Places {
        dirs: Vec::new(rt.alloc()),
        parities: Vec::new(rt.alloc()),
        contents: Vec::new(rt.alloc()),
    }
}

fn named(rt: HostRuntime, names: &mut Vec<Text>, name: &str) -> Option<Answer> {
    let name = Text::new(rt.alloc(), name).ok()?;
    Some(done(names.push(name)))
}
