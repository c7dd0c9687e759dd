//! The texts of the worked tasks.
use crate::reading::Texts;

/// A stream grips a cup.
pub const FETCH: Texts<'static> = Texts {
    domain: "(define (domain fetch)
  (:predicates (item ?x) (hold ?x ?g) (grip ?x ?g) (free) (done ?x))
  (:action take :parameters (?x ?g)
    :precondition (and (free) (grip ?x ?g))
    :effect (and (hold ?x ?g) (not (free))))
  (:action drop :parameters (?x ?g) :precondition (hold ?x ?g)
    :effect (and (done ?x) (free) (not (hold ?x ?g)))))",
    problem: "(define (problem one) (:domain fetch) (:objects cup)
  (:init (item cup) (free)) (:goal (done cup)))",
    streams: "(define (stream fetch) (:stream grip :inputs (?x) :domain (item ?x)
  :outputs (?g) :certified (grip ?x ?g)))",
};

/// Two grips of one cup, and a test.
pub const TWO: Texts<'static> = Texts {
    domain: "(define (domain two) (:predicates (item ?x) (grip ?x ?g) (ok ?x)))",
    problem: "(define (problem t) (:domain two) (:objects cup) (:init (item cup))
  (:goal (exists (?g ?h) (and (grip cup ?g) (grip cup ?h)
    (not (= ?g ?h)) (ok cup)))))",
    streams: "(define (stream two)
  (:stream grip :inputs (?x) :domain (item ?x) :outputs (?g)
    :certified (grip ?x ?g))
  (:stream ok :inputs (?x) :domain (item ?x) :certified (ok ?x)))",
};

/// A stream whose inputs another one makes.
pub const ARM: Texts<'static> = Texts {
    domain: "(define (domain arm) (:predicates (start ?x) (pose ?p) (conf ?q)))",
    problem: "(define (problem r) (:domain arm) (:objects a) (:init (start a))
  (:goal (exists (?q) (conf ?q))))",
    streams: "(define (stream arm)
  (:stream kin :inputs (?p) :domain (pose ?p) :outputs (?q)
    :certified (conf ?q))
  (:stream pose :inputs (?x) :domain (start ?x) :outputs (?p)
    :certified (pose ?p)))",
};

/// Two streams whose outputs an action takes together.
pub const SAME: Texts<'static> = Texts {
    domain: "(define (domain same) (:predicates (start ?x) (one ?x) (two ?x) (won))
  (:action use :parameters (?x) :precondition (and (one ?x) (two ?x))
    :effect (won)))",
    problem: "(define (problem s) (:domain same) (:objects a cup)
  (:init (start a) (one cup)) (:goal (won)))",
    streams: "(define (stream same)
  (:stream s1 :inputs (?x) :domain (start ?x) :outputs (?y) :certified (one ?y))
  (:stream s2 :inputs (?x) :domain (start ?x) :outputs (?y) :certified (two ?y)))",
};

/// No streams, and nothing at first.
pub const LAMPS: Texts<'static> = Texts {
    domain: "(define (domain lamps) (:predicates (on ?x) (never))
  (:action turn :parameters (?x) :precondition (not (on ?x)) :effect (on ?x)))",
    problem: "(define (problem l) (:domain lamps) (:objects a b) (:init) (:goal (never)))",
    streams: "(define (stream empty))",
};

/// An action that costs what a function says.
pub const KEEP: Texts<'static> = Texts {
    domain: "(define (domain keep) (:predicates (p) (q))
  (:functions (f) - number (total-cost) - number)
  (:action a1 :parameters () :precondition (p)
    :effect (and (p) (not (p)) (q) (increase (total-cost) (f)))))",
    problem: "(define (problem k) (:domain keep)
  (:init (p) (= (total-cost) 0) (= (f) 7))
  (:goal (and (p) (q))) (:metric minimize (total-cost)))",
    streams: "(define (stream empty))",
};

/// Three streams, two of which make what the goal asks for.
pub const SOW: Texts<'static> = Texts {
    domain: "(define (domain d) (:predicates (start ?x) (seed ?x) (good ?x)))",
    problem: "(define (problem p) (:domain d) (:objects a) (:init (start a))
  (:goal (exists (?x) (good ?x))))",
    streams: "(define (stream s)
  (:stream try :inputs (?x) :domain (start ?x) :outputs (?y) :certified (good ?y))
  (:stream sow :inputs (?x) :domain (start ?x) :outputs (?y) :certified (seed ?y))
  (:stream grow :inputs (?x) :domain (seed ?x) :outputs (?y) :certified (good ?y)))",
};

/// Blocks on a grid, with types and derived predicates.
pub const GRID: Texts<'static> = Texts {
    domain: "(define (domain grid)
  (:requirements :strips :typing :negative-preconditions :derived-predicates)
  (:types block region pose side cell)
  (:predicates (fits ?b - block ?r - region) (pose ?b - block ?p - pose)
    (in ?b - block ?p - pose ?r - region) (grasp ?b - block ?g - side)
    (reach ?b - block ?p - pose ?g - side ?c - cell)
    (clear ?b - block ?p - pose ?o - block ?q - pose)
    (at ?b - block ?p - pose) (free) (holding ?b - block ?g - side)
    (unsafe ?b - block ?p - pose) (placed ?b - block ?r - region))
  (:derived (unsafe ?b - block ?p - pose)
    (exists (?o - block ?q - pose)
      (and (at ?o ?q) (not (= ?o ?b)) (not (clear ?b ?p ?o ?q)))))
  (:derived (placed ?b - block ?r - region)
    (exists (?p - pose) (and (at ?b ?p) (in ?b ?p ?r))))
  (:action pick :parameters (?b - block ?p - pose ?g - side ?c - cell)
    :precondition (and (free) (at ?b ?p) (reach ?b ?p ?g ?c))
    :effect (and (holding ?b ?g) (not (at ?b ?p)) (not (free))))
  (:action put :parameters (?b - block ?p - pose ?g - side ?c - cell)
    :precondition (and (holding ?b ?g) (reach ?b ?p ?g ?c)
      (not (unsafe ?b ?p)))
    :effect (and (at ?b ?p) (free) (not (holding ?b ?g)))))",
    problem: "(define (problem grid-1) (:domain grid)
  (:objects b1 - block r1 - region home-b1 - pose)
  (:init (free) (fits b1 r1) (pose b1 home-b1) (at b1 home-b1))
  (:goal (and (placed b1 r1))))",
    streams: "(define (stream grid)
  (:stream place :inputs (?b - block ?r - region) :domain (fits ?b ?r)
    :outputs (?p - pose) :certified (and (pose ?b ?p) (in ?b ?p ?r)))
  (:stream grasp :inputs (?b - block) :outputs (?g - side)
    :certified (grasp ?b ?g))
  (:stream reach :inputs (?b - block ?p - pose ?g - side)
    :domain (and (pose ?b ?p) (grasp ?b ?g)) :outputs (?c - cell)
    :certified (reach ?b ?p ?g ?c))
  (:stream clear
    :inputs (?b - block ?p - pose ?o - block ?q - pose)
    :domain (and (pose ?b ?p) (pose ?o ?q)) :certified (clear ?b ?p ?o ?q)))",
};
